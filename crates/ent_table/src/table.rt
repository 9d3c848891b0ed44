//! The table: three lists of names, and an answer for each of the requests that they make.

ghost use Rattle.std.specs.Prelude.{◌≡◌, ◌+◌, ◌<◌, ◌≤◌, false, length, IfOk, MatchOption, OnErr, OnOk};
ghost use Rattle.ent_cells.specs.Cell.{cell_of};
ghost use Rattle.ent_cells.specs.Count.{Counts, CountsAtMost};
ghost use Rattle.ent_cells.specs.Old.{IsLogged};
ghost use Rattle.ent_eval.specs.Evaluator.{OnlyCounts};
ghost use Rattle.ent_eval.specs.LooksOf.{looks_of};
ghost use Rattle.ent_table.specs.Names.{has_name, list_of};
ghost use Rattle.ent_log.specs.Tables.{IsSameLog, room_of};
ghost use Rattle.ent_table.specs.proofs_only.Table.{Drops, HasSameCells, IsAdded, behind, empty_table};
ghost use Rattle.ent_table.specs.proofs_only.Table.{requests_with, unanswered};

use crate::edit::List;
use crate::lists::Lists;
use ent_cells::{Blocks, Live, Who};
use ent_eval::{Answer, Evaluates};
use ent_log::{Log, OldAnswer};
use ent_values::{Items, Shared, Text};
use std::alloc::{AllocError, Global};
use std::slice;

/// The names, and a cell for each of the requests that they make, in list order: people outermost, then actions, then
/// resources.
#[derive(Drop)]
pub(crate) struct Table<E: Evaluates> {
    pub(crate) names: Lists,
    pub(crate) cells: Live<E>,
}

/// The blocks behind which the cells of a new name belong: the cells of a new person come last.
fn behind(list: List, blocks: Blocks) -> Blocks
    ensures { result ≡ behind list blocks }
{
    match list {
        List::People => Blocks { count: 0, ..blocks },
        List::Actions | List::Resources => blocks,
    }
}

/// The old answers of requests that had none.
fn unanswered(
    alloc: Global,
    requests: &[Shared<Who>],
) -> Result<Items<OldAnswer<Who, Answer>>, AllocError>
    ensures { IfOk result (λ olds. olds ≡ unanswered requests.now) }
{
    let mut olds = Vec::with_capacity(alloc, requests.len())?;
    for request in requests {
        let key = request.copy()?;
        olds.push(OldAnswer { key, answer: None })?;
    }
    Ok(Items::from_vec(olds))
}

/// Makes room in a log for so many old answers of cells more, and then for the answer of each cell, old and new.
fn make_room(log: &mut Log<Who, Answer>, cells: usize, more: usize) -> Result<(), AllocError>
    ensures room { OnOk result (more + (cells + more) ≤ room_of log.new) }
    ensures same { IsSameLog log.old log.new }
    ensures grows { room_of log.old ≤ room_of log.new }
{
    let Some(all) = cells.checked_add(more) else {
        return Err(AllocError);
    };
    let Some(room) = all.checked_add(more) else {
        return Err(AllocError);
    };
    log.reserve(room)
}

impl<E: Evaluates> Table<E> {
    /// No names, and so no cells of an evaluator's requests.
    pub(crate) fn new(alloc: Global, evaluator: E) -> Table<E>
        ensures { result ≡ empty_table (E.evaluator evaluator) }
    {
        Table {
            names: Lists::new(alloc),
            cells: Live::new(alloc, evaluator),
        }
    }

    /// Puts a name last in its list, and the cells of its requests where they belong, each evaluated once, and tells
    /// the old answers of these requests, which are none. There is room in the log for them then, and for the answer of
    /// each cell; nothing is logged. After a refusal the table is as before.
    pub(crate) fn add(
        &mut self,
        alloc: Global,
        log: &mut Log<Who, Answer>,
        list: List,
        name: Text,
    ) -> Result<Items<OldAnswer<Who, Answer>>, AllocError>
        requires room { length (list_of list self.old.names) < 65536 }
        requires absent { has_name name (list_of list self.old.names) ≡ false }
        ensures ok { OnOk result
            (IsAdded (cell_of (looks_of self.old.cells.evaluator.pdp)) list name self.old self.new) }
        ensures olds { IfOk result (λ olds. olds ≡ unanswered (requests_with list name self.old.names)) }
        ensures room { IfOk result (λ olds. length olds + length self.new.cells.kept ≤ room_of log.new) }
        ensures same { IsSameLog log.old log.new }
        ensures grows { room_of log.old ≤ room_of log.new }
        ensures err { OnErr result (HasSameCells self.old self.new) }
        ensures counted { OnOk result
            (Counts self.old.cells.evaluator.pdp.evaluations self.new.cells.evaluator.pdp.evaluations
            (length (requests_with list name self.old.names))) }
        ensures bound { CountsAtMost self.old.cells.evaluator.pdp.evaluations
            self.new.cells.evaluator.pdp.evaluations (length (requests_with list name self.old.names)) }
        ensures rest { OnlyCounts self.old.cells.evaluator.pdp self.new.cells.evaluator.pdp }
    {
        let blocks = self.names.blocks(list);
        let requests = self
            .names
            .requests_with(list, slice::from_ref(&name))
            .all(alloc, blocks.count * blocks.each)?;
        let olds = unanswered(alloc, requests.as_slice())?;
        make_room(log, self.cells.len(), olds.len())?;
        self.names.push(alloc, list, name)?;
        match self.cells.add(behind(list, blocks), requests) {
            Ok(()) => Ok(olds),
            Err(error) => {
                self.names.undo_push(list);
                Err(error)
            }
        }
    }

    /// Takes a name out of its list and drops the cells of its requests, of which it logs the answers, and tells how
    /// many they were. It takes no memory.
    pub(crate) fn remove(
        &mut self,
        log: &mut Log<Who, Answer>,
        list: List,
        name: &str,
    ) -> Option<usize>
        requires { length self.old.cells.kept ≤ room_of log.old }
        ensures dropped { Drops list name.now self.old self.new result }
        ensures logged { MatchOption result (log.new ≡ log.old)
            (λ _. IsLogged self.old.cells.kept self.new.cells.kept log.old log.new) }
        ensures evaluator { self.new.cells.evaluator ≡ self.old.cells.evaluator }
        ensures from { log.new.from ≡ log.old.from }
        ensures serial { log.new.serial ≡ log.old.serial }
        ensures room { length self.new.cells.kept ≤ room_of log.new }
    {
        let blocks = self.names.blocks(list);
        let place = self.names.remove(list, name)?;
        let before = self.cells.len();
        self.cells.narrow(log, blocks, place * blocks.each);
        Some(before - self.cells.len())
    }
}
