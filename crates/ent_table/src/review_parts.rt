//! The parts of a review.

ghost use Rattle.std.specs.Prelude.{◌≡◌, ◌+◌, ◌<◌, ◌≤◌, ◌^◌, length};
ghost use Rattle.ent_log.specs.Tables.{room_of};
ghost use Rattle.ent_table.specs.Fresh.{IsFresh, point_of, state_of};
ghost use Rattle.ent_table.specs.Step.{is_last};
ghost use Rattle.ent_table.specs.Tables.{Logs};
ghost use Rattle.ent_table.specs.proofs_only.Change.{Counted, Keeps, Makes};
ghost use Rattle.ent_table.specs.proofs_only.Exchange.{IsWithin, count_with, exchanged, exchanged_unless_last};

use crate::edit::{Accepted, EditFault};
use crate::limits::Limits;
use crate::review::LAST_SERIAL;
use crate::table::Table;
use ent_cells::Who;
use ent_eval::{Answer, Evaluates, Exchange, Pdp};
use ent_log::{Log, OldAnswer};
use ent_values::Items;
use std::alloc::Global;

/// The parts of a review. Between the phases of an edit they don't fit each other, so they are no review then.
#[derive(Drop)]
pub(crate) struct ReviewParts<E: Evaluates> {
    pub(crate) alloc: Global,
    pub(crate) limits: Limits,
    // What is held stands in its evaluator.
    pub(crate) table: Table<E>,
    // What edits changed, and how many were accepted.
    pub(crate) log: Log<Who, Answer>,
    // How many documents are held.
    pub(crate) documents: u128,
}

impl<E: Evaluates> ReviewParts<E> {
    /// The decision point.
    pub(crate) fn pdp(&self) -> &Pdp<E::Attributes, E::Policies>
        ensures { result.now ≡ point_of self.now }
    {
        self.table.cells.pdp()
    }

    /// Makes an exchange that is refused at the last serial alone, and leaves how many documents are held.
    pub(crate) fn set(&mut self, exchange: Exchange) -> Result<Accepted, EditFault>
        requires fresh { IsFresh self.old }
        requires within { IsWithin (state_of self.old) exchange }
        requires documents { self.old.documents ≡ count_with (state_of self.old) exchange }
        ensures fresh { IsFresh self.new }
        ensures step { Makes (λ s. exchanged_unless_last s exchange) self.old self.new result }
        ensures counted { Counted (λ s. exchanged_unless_last s exchange) self.old self.new result }
        ensures tables { Keeps self.old self.new }
    {
        if self.is_last() {
            return Err(EditFault::Limit);
        }
        let documents = self.documents;
        self.make(exchange, documents)
    }

    /// Makes an exchange, after which so many documents are held, and keeps the table right: it evaluates the cells of
    /// which a look-up gives another, each once. After a refusal everything is as before.
    pub(crate) fn make(
        &mut self,
        mut exchange: Exchange,
        documents: u128,
    ) -> Result<Accepted, EditFault>
        requires fresh { IsFresh self.old }
        requires serial { self.old.log.serial < 2 ^ 63 }
        requires within { IsWithin (state_of self.old) exchange }
        requires documents { documents ≡ count_with (state_of self.old) exchange }
        ensures fresh { IsFresh self.new }
        ensures step { Makes (λ s. exchanged s exchange) self.old self.new result }
        ensures counted { Counted (λ s. exchanged s exchange) self.old self.new result }
        ensures tables { Keeps self.old self.new }
    {
        let Ok(changed) = self.exchange_and_tell(&mut exchange) else {
            return Err(EditFault::Memory);
        };
        let cells = &mut self.table.cells;
        match cells.settle(&mut self.log, changed.as_slice()) {
            Ok(olds) => {
                self.documents = documents;
                Ok(self.log_edit(olds))
            }
            Err(_) => {
                self.take_back(&mut exchange);
                Err(EditFault::Memory)
            }
        }
    }

    /// Whether no edit is accepted any more.
    pub(crate) fn is_last(&self) -> bool
        ensures { result ≡ is_last (state_of self.now) }
    {
        self.log.serial() >= LAST_SERIAL
    }

    /// Logs an edit that was made by the old answers of what it changed, and counts it. It takes no memory.
    pub(crate) fn log_edit(&mut self, olds: Items<OldAnswer<Who, Answer>>) -> Accepted
        requires serial { self.old.log.serial < 2 ^ 63 }
        requires room { length olds + length self.old.table.cells.kept ≤ room_of self.old.log }
        ensures rest { self.new ≡ record self.old { log = self.new.log } }
        ensures logs { Logs olds self.old.log self.new.log }
        ensures room { length self.new.table.cells.kept ≤ room_of self.new.log }
        ensures accepted { result ≡ record { serial = self.old.log.serial + 1; changes = length olds } }
    {
        let changes = olds.len();
        self.log.push(olds);
        self.accepted(changes)
    }

    /// What an edit is answered that was counted last.
    pub(crate) fn accepted(&self, changes: usize) -> Accepted
        ensures { result ≡ record { serial = self.now.log.serial; changes = changes } }
    {
        Accepted {
            serial: self.log.serial(),
            changes: changes as u64,
        }
    }
}
