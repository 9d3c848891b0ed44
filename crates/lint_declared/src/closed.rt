//! Names that are listed, as the values that the ids of a request may have.

ghost use Rattle.std.specs.Prelude.{◌≡◌, ◌++◌, IfOk, OnOk};
ghost use Rattle.lint_declared.specs.Closed.{closed, closed_by, names_of};

use crate::always::{ACCESS_SUBJECT, ACTION, ACTION_ID, RESOURCE, RESOURCE_ID, SUBJECT_ID};
use crate::attribute::DeclaredAttribute;
use crate::listed::{Listed, ListedName};
use ent_values::{DataType, Items, Text, Value};
use std::alloc::{AllocError, Global};
use std::collections::BTreeSet;

/// The names of a category, as values.
#[tactic(auto, using(crate::proofs::Closing::one_more, crate::proofs::Closing::none_more, crate::proofs::Closing::of_all))]
fn names_of(
    alloc: Global,
    names: &BTreeSet<ListedName>,
    category: &str,
) -> Result<Items<Value>, AllocError>
    ensures { IfOk result (λ vs. vs ≡ names_of category.now names.now.keys) }
{
    let mut values = Items::new(alloc);
    for name in names {
        if name.category.as_str() == category {
            values.push(Value::Text(name.name.copy(alloc)?))?;
        }
    }
    Ok(values)
}

/// Puts an attribute last that may have these values alone, if there are any.
fn put_closed(
    alloc: Global,
    attributes: &mut Items<DeclaredAttribute>,
    category: &str,
    id: &str,
    values: Items<Value>,
) -> Result<(), AllocError>
    ensures { OnOk result (attributes.new ≡ attributes.old ++ closed category.now id.now values) }
{
    if values.is_empty() {
        return Ok(());
    }
    attributes.push(DeclaredAttribute {
        category: Text::from_str(alloc, category)?,
        id: Text::from_str(alloc, id)?,
        datatype: DataType::Text,
        issuer: None,
        values: Some(values),
    })
}

impl Listed {
    /// Puts the ids of a request last whose names are listed, with these names as the values that they may have.
    ///
    /// # Errors
    ///
    /// `AllocError` if memory runs out: then some may stand there.
    ///
    /// Its contract is an equation but for memory.
    pub fn put_last(
        &self,
        alloc: Global,
        attributes: &mut Items<DeclaredAttribute>,
    ) -> Result<(), AllocError>
        ensures { OnOk result (attributes.new ≡ attributes.old ++ closed_by self.now) }
    {
        let people = names_of(alloc, &self.names, ACCESS_SUBJECT)?;
        put_closed(alloc, attributes, ACCESS_SUBJECT, SUBJECT_ID, people)?;
        let actions = names_of(alloc, &self.names, ACTION)?;
        put_closed(alloc, attributes, ACTION, ACTION_ID, actions)?;
        let resources = names_of(alloc, &self.names, RESOURCE)?;
        put_closed(alloc, attributes, RESOURCE, RESOURCE_ID, resources)
    }
}
