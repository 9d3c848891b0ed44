//! The requests that three lists of names make.

ghost use Rattle.std.specs.Prelude.{◌≡◌, ◌++◌, IfOk, OnOk};
ghost use Rattle.ent_table.specs.Names.{triples, with_actions, with_resources};
ghost use Rattle.ent_table.specs.proofs_only.Place.{names_in};

use crate::lists::Requests;
use ent_cells::Who;
use ent_values::{Items, Shared, Text};
use std::alloc::{AllocError, Global};

/// Appends the requests of a person and an action with each of the resources.
fn add_resources(
    alloc: Global,
    person: &Text,
    action: &Text,
    resources: &[Text],
    requests: &mut Vec<Shared<Who>>,
) -> Result<(), AllocError>
    ensures { OnOk result
        (requests.new.items ≡ requests.old.items ++ with_resources person.now action.now resources.now) }
{
    for resource in resources {
        let who = Who::of(alloc, person, action, resource)?;
        requests.push(who)?;
    }
    Ok(())
}

/// Appends the requests of a person with each of the actions and resources.
fn add_actions(
    alloc: Global,
    person: &Text,
    actions: &[Text],
    resources: &[Text],
    requests: &mut Vec<Shared<Who>>,
) -> Result<(), AllocError>
    ensures { OnOk result
        (requests.new.items ≡ requests.old.items ++ with_actions person.now actions.now resources.now) }
{
    for action in actions {
        add_resources(alloc, person, action, resources, requests)?;
    }
    Ok(())
}

impl Requests<'_> {
    /// All requests of the names, people outermost. There are `count` of them.
    pub(crate) fn all(&self, alloc: Global, count: usize) -> Result<Items<Shared<Who>>, AllocError>
        ensures { IfOk result (λ requests. requests ≡ triples (names_in self.now)) }
    {
        let mut requests = Vec::with_capacity(alloc, count)?;
        for person in self.people {
            add_actions(alloc, person, self.actions, self.resources, &mut requests)?;
        }
        Ok(Items::from_vec(requests))
    }
}
