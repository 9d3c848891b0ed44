//! The review table and its edits.

ghost use Rattle.std.specs.Prelude.{◌≡◌, ◌≤◌, length};
ghost use Rattle.std.specs.Option.{option_copied};
ghost use Rattle.ent_eval.specs.LooksOf.{held_by};
ghost use Rattle.ent_table.specs.Change.{Edits, IsIdle, IsSure};
ghost use Rattle.ent_table.specs.Counted.{IsCounted};
ghost use Rattle.ent_table.specs.Failed.{judged};
ghost use Rattle.ent_table.specs.Left.{cells_left, judged_left};
ghost use Rattle.ent_table.specs.Limits.{IsWithinGreatest};
ghost use Rattle.ent_table.specs.Names.{has_name, list_of, triple_of};
ghost use Rattle.ent_table.specs.State.{answer_at, initial, table_of};
ghost use Rattle.ent_table.specs.Step.{step};
ghost use Rattle.ent_table.specs.Tables.{IsFreshAtSerial, KeepsTables};

use crate::cells::Cells;
use crate::edit::{Accepted, Edit, EditFault, List};
use crate::judged::Judged;
use crate::limits::Limits;
use crate::review_parts::ReviewParts;
use crate::table::Table;
use ent_eval::{Answer, Environment, Evaluates, Exchange};
use ent_finder::Policies;
use ent_log::Log;
use ent_values::Shared;
use std::alloc::Global;
use std::marker::Model;

/// No edit is accepted at this serial.
pub const LAST_SERIAL: u64 = 9_223_372_036_854_775_808;

/// The review table: for each listed person, action and resource the answer to that request, kept right over every
/// edit.
#[derive(Drop)]
pub struct Review<E: Evaluates> {
    pub(crate) parts: ReviewParts<E>,
}

impl<E: Evaluates> Model for Review<E> {
    ghost use Rattle.ent_table.specs.Reviewed.{Reviewed};
    ghost use Rattle.ent_table.specs.proofs_only.Codes.{reviewed_code};

    ghost Value = { Reviewed };

    ghost coded = { reviewed_code };

    ghost use Rattle.ent_table.specs.Fresh.{IsFresh, reviewed};

    ghost view = { λ r. reviewed r.parts };

    ghost invariant = { λ r. IsFresh r.parts };
}

impl<E: Evaluates> Review<E> {
    /// A review of what a decision point holds, with no names listed. No limit may be above the greatest one.
    ///
    /// Its contract leaves open: how the tables before are kept, of which there are none. State, count and the first
    /// serial are said.
    pub fn new(alloc: Global, pdp: E::Pdp, limits: Limits) -> Review<E>
        requires { IsWithinGreatest limits }
        ensures state { result.state ≡ initial (held_by (E.point pdp)) limits }
        ensures counted { result.evaluations ≡ (E.point pdp).evaluations }
        ensures from { result.past.from ≡ 0 }
        ensures now { IsFreshAtSerial result }
    {
        let evaluator = E::of(alloc, pdp);
        let documents = evaluator.pdp().policies().document_count();
        Review {
            parts: ReviewParts {
                alloc,
                limits,
                table: Table::new(alloc, evaluator),
                log: Log::new(alloc),
                documents,
            },
        }
    }

    /// Makes an edit, and keeps the table right. After a refusal everything is as before. The table at each serial so
    /// far stays what it was, and the one at the new serial is the fresh one.
    ///
    /// Dropping a name evaluates nothing and takes no memory.
    ///
    /// Its contract is an equation but for memory.
    pub fn edit(&mut self, edit: Edit) -> Result<Accepted, EditFault>
        ensures step { Edits (λ s. step s edit) self.old.state self.new.state result }
        ensures sure { IsSure edit self.old.state result }
        ensures counted { IsCounted (step self.old.state edit) self.old.state
            self.old.evaluations self.new.evaluations result }
        ensures idle { IsIdle edit self.old.evaluations self.new.evaluations }
        ensures tables { KeepsTables self.old self.new }
        ensures now { IsFreshAtSerial self.new }
    {
        let parts = &mut self.parts;
        // The count is within its type.
        let _evaluations = parts.pdp().evaluations();
        match edit {
            Edit::AddPolicy(number, document) => parts.add_policy(number, document),
            Edit::ReplacePolicy(number, document) => parts.replace_policy(number, document),
            Edit::WithdrawPolicy(number, key) => parts.withdraw_policy(number, key),
            Edit::SetAttribute(number, key, values) => parts.set_attribute(number, key, values),
            Edit::AddName(list, name) => parts.add_name(list, name),
            Edit::DropName(list, name) => parts.drop_name(list, &name),
            Edit::SetRoot(root) => parts.set(Exchange::Root(root)),
            Edit::SetDay(day) => parts.set(Exchange::Environment(Environment::of_day(day))),
            Edit::SetMoment(moment) => {
                parts.set(Exchange::Environment(Environment::of_moment(moment)))
            }
        }
    }

    /// The answer to a listed request.
    ///
    /// Its contract is an equation.
    pub fn cell(&self, person: &str, action: &str, resource: &str) -> Option<&Answer>
        ensures { option_copied result
            ≡ answer_at self.now.state (triple_of person.now action.now resource.now) }
    {
        Some(self.shared_answer(person, action, resource)?.get())
    }

    /// The answer to a listed request, as its owner.
    pub(crate) fn shared_answer(
        &self,
        person: &str,
        action: &str,
        resource: &str,
    ) -> Option<&Shared<Answer>>
        ensures { option_copied result
            ≡ answer_at self.now.state (triple_of person.now action.now resource.now) }
    {
        let table = &self.parts.table;
        let place = table.names.place(person, action, resource)?;
        table.cells.shared_answer(place)
    }

    /// The listed requests with their answers in list order, people outermost, then actions, then resources.
    ///
    /// Its contract is an equation.
    pub fn cells(&self) -> Cells<'_, E>
        ensures { cells_left result ≡ table_of self.now.state }
    {
        let table = &self.parts.table;
        Cells::new(
            table.names.names(List::People),
            table.names.names(List::Actions),
            table.names.names(List::Resources),
            &table.cells,
            0,
        )
    }

    /// The cells in list order, each with whether a part of it came to Indeterminate by itself, whatever its decision.
    ///
    /// Its contract is an equation.
    pub fn judged(&self) -> Judged<'_, E>
        ensures { judged_left result ≡ judged self.now.state }
    {
        Judged::new(self.cells(), &self.parts.table.cells)
    }

    /// Whether a list has the name.
    ///
    /// Its contract is an equation.
    pub fn listed(&self, list: List, name: &str) -> bool
        ensures { result ≡ has_name name.now (list_of list self.now.state.names) }
    {
        self.parts.table.names.has(list, name)
    }

    /// How many edits were accepted.
    ///
    /// Its contract is an equation.
    pub fn serial(&self) -> u64
        ensures value { result ≡ self.now.state.serial }
        ensures from { self.now.past.from ≤ result }
        ensures now { IsFreshAtSerial self.now }
    {
        self.parts.log.serial()
    }

    /// How many times a request was evaluated.
    ///
    /// Its contract is an equation.
    pub fn evaluations(&self) -> u128
        ensures { result ≡ self.now.evaluations }
    {
        self.parts.pdp().evaluations()
    }

    /// How many cells the table has.
    ///
    /// Its contract is an equation.
    pub fn cell_count(&self) -> usize
        ensures { result ≡ length (table_of self.now.state) }
    {
        self.parts.table.cells.len()
    }
}
