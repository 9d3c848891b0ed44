//! Who does what to what: the request of a cell.

ghost use Rattle.std.specs.Prelude.{◌≡◌, IfOk};
ghost use Rattle.ent_eval.specs.Names.{named_by};

use ent_values::{Shared, Text};
use std::alloc::{AllocError, Global};

/// The request of a cell: who does what to what. All cells of a name share its bytes.
#[derive(PartialEq, Eq, PartialOrd, Ord, Drop)]
pub struct Who {
    pub person: Text,
    pub action: Text,
    pub resource: Text,
}

/// The names of a person, an action and a resource, lent.
#[derive(Clone, Copy)]
pub struct Names<'a> {
    pub person: &'a Text,
    pub action: &'a Text,
    pub resource: &'a Text,
}

impl Who {
    /// The request of three names, which shares their bytes.
    ///
    /// Its contract is an equation but for memory.
    pub fn of(
        alloc: Global,
        person: &Text,
        action: &Text,
        resource: &Text,
    ) -> Result<Shared<Who>, AllocError>
        ensures { IfOk result
            (λ who. who ≡ record { person = person.now; action = action.now; resource = resource.now }) }
    {
        let who = Who {
            person: person.copy(alloc)?,
            action: action.copy(alloc)?,
            resource: resource.copy(alloc)?,
        };
        Shared::new(alloc, who)
    }

    /// Its names.
    ///
    /// Its contract is an equation.
    pub fn names(&self) -> Names<'_>
        ensures { named_by result ≡ self.now }
    {
        Names {
            person: &self.person,
            action: &self.action,
            resource: &self.resource,
        }
    }
}
