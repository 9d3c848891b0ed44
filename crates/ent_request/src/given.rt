//! Obligations and advice that go with a decision.

ghost use Rattle.std.specs.Prelude.{◌≡◌, IfOk};

use crate::answer::copied_text;
use ent_values::{Items, Text, Value};
use std::alloc::{AllocError, Global};

/// A value that an obligation or an advice assigns to an attribute (section 5.36).
#[derive(PartialEq, Eq, Drop)]
pub struct Assignment {
    pub attribute: Text,
    pub category: Option<Text>,
    pub issuer: Option<Text>,
    pub value: Value,
}

/// An obligation or an advice (sections 5.34 and 5.35).
#[derive(PartialEq, Eq, Drop)]
pub struct Given {
    pub id: Text,
    pub assignments: Items<Assignment>,
}

impl Assignment {
    /// An equal assignment.
    ///
    /// Its contract is an equation but for memory.
    pub fn copy(&self, alloc: Global) -> Result<Assignment, AllocError>
        ensures { IfOk result (λ a. a ≡ self.now) }
    {
        Ok(Assignment {
            attribute: self.attribute.copy(alloc)?,
            category: copied_text(alloc, &self.category)?,
            issuer: copied_text(alloc, &self.issuer)?,
            value: self.value.copy(alloc)?,
        })
    }
}

impl Given {
    /// An equal obligation or advice.
    ///
    /// Its contract is an equation but for memory.
    pub fn copy(&self, alloc: Global) -> Result<Given, AllocError>
        ensures { IfOk result (λ g. g ≡ self.now) }
    {
        Ok(Given {
            id: self.id.copy(alloc)?,
            assignments: copied_assignments(alloc, self.assignments.as_slice())?,
        })
    }
}

/// An equal list of obligations or advice.
pub(crate) fn copied_given(alloc: Global, given: &[Given]) -> Result<Items<Given>, AllocError>
    ensures { IfOk result (λ g. g ≡ given.now) }
{
    let mut copies = Items::with_capacity(alloc, given.len())?;
    for one in given {
        copies.push(one.copy(alloc)?)?;
    }
    Ok(copies)
}

// An equal list of assignments.
fn copied_assignments(
    alloc: Global,
    assignments: &[Assignment],
) -> Result<Items<Assignment>, AllocError>
    ensures { IfOk result (λ a. a ≡ assignments.now) }
{
    let mut copies = Items::with_capacity(alloc, assignments.len())?;
    for assignment in assignments {
        copies.push(assignment.copy(alloc)?)?;
    }
    Ok(copies)
}
