//! What changed since a serial.

ghost use Rattle.std.specs.Prelude.{◌≡◌, ◌≤◌, IfOk, map, max};
ghost use Rattle.ent_table.specs.Tables.{AreTheDifference, LeavesTables, change_of, changes_from, table_at_serial};

use crate::review::Review;
use ent_cells::Who;
use ent_eval::{Answer, Evaluates};
use ent_log::{LoggedChange as Logged, Present};
use ent_values::{Items, Shared, Text};
use std::alloc::{AllocError, Global};

/// A request to which two tables give different answers, or only one of them gives an answer, with both, or with a part
/// of each.
#[derive(Drop)]
pub struct Change<T = Shared<Answer>> {
    /// The person of the request.
    pub person: Text,
    /// Its action.
    pub action: Text,
    /// Its resource.
    pub resource: Text,
    /// What the earlier table has, `None` where the request wasn't listed.
    pub before: Option<T>,
    /// What the later one has, `None` where the request isn't listed.
    pub after: Option<T>,
}

/// A logged change, with the three names of its request.
fn named(alloc: Global, change: Logged<Who, Answer>) -> Result<Change, AllocError>
    ensures { IfOk result (λ c. c ≡ change_of change) }
{
    let Logged { key, before, after } = change;
    let who = key.get();
    Ok(Change {
        person: who.person.copy(alloc)?,
        action: who.action.copy(alloc)?,
        resource: who.resource.copy(alloc)?,
        before,
        after,
    })
}

/// Logged changes, each with the three names of its request.
fn all_named(alloc: Global, logged: Items<Logged<Who, Answer>>) -> Result<Items<Change>, AllocError>
    ensures { IfOk result (λ changes. changes ≡ map change_of logged) }
{
    let mut changes = Vec::with_capacity(alloc, logged.len())?;
    for change in logged.into_vec() {
        changes.push(named(alloc, change)?)?;
    }
    Ok(Items::from_vec(changes))
}

impl<E: Evaluates> Present<Who, Answer> for Review<E> {
    ghost use Rattle.ent_table.specs.State.{answer_at};

    ghost can_answer = { λ _. Unit {0} };

    ghost answers = { λ v. answer_at v.state };

    fn answer(&self, key: &Who) -> Option<&Shared<Answer>> {
        self.shared_answer(
            key.person.as_str(),
            key.action.as_str(),
            key.resource.as_str(),
        )
    }
}

impl<E: Evaluates> Review<E> {
    /// The least serial whose table is known: 0 for a new review.
    ///
    /// Its contract is an equation.
    pub fn kept_from(&self) -> u64
        ensures { result ≡ self.now.past.from }
    {
        self.parts.log.kept_from()
    }

    /// What changed since a serial that is still known: each request to which the tables at that serial and now give
    /// different answers, once, in byte order of person, then action, then resource, with both answers. It takes time
    /// in proportion to what was logged since then, times a logarithm.
    ///
    /// # Errors
    ///
    /// `AllocError` if memory runs out.
    ///
    /// Its contract is an equation but for memory.
    pub fn changes_since(&self, serial: u64) -> Result<Items<Change>, AllocError>
        requires kept { self.now.past.from ≤ serial }
        requires reached { serial ≤ self.now.state.serial }
        ensures difference { IfOk result (AreTheDifference (table_at_serial self.now serial) self.now.state) }
        ensures told { IfOk result
            (λ changes. changes ≡ changes_from (table_at_serial self.now serial) self.now.state) }
    {
        let parts = &self.parts;
        let logged = parts.log.changes_since(parts.alloc, self, serial)?;
        all_named(parts.alloc, logged)
    }

    /// Forgets the tables before a serial: those at the serials from there on stay known. It takes no memory. Where the
    /// tables before the serial are forgotten already, nothing changes.
    ///
    /// Its contract leaves open: how the tables are kept that stay known. Each of them is said to be as it was.
    pub fn forget_before(&mut self, serial: u64)
        requires { serial ≤ self.old.state.serial }
        ensures rest { self.new ≡ record self.old { past = self.new.past } }
        ensures from { self.new.past.from ≡ max serial self.old.past.from }
        ensures tables { LeavesTables self.old self.new }
    {
        self.parts.log.forget_before(serial);
    }
}
