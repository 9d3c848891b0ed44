//! The live table: cells in list order, and an index of what they read.

ghost use Rattle.std.specs.Prelude.{◌≡◌, ◌<◌, ◌≤◌, ◌+◌, ◌++◌, ◌∷◌, [], count_by, drop, length, map, slice_get, take};
ghost use Rattle.std.specs.Prelude.{IfOk, IfSome, MatchOption, OnErr, OnOk, option_copied, option_map, vec_capacity};
ghost use Rattle.std.specs.List.{AllByRecursion};
ghost use Rattle.ent_eval.specs.Evaluator.{OnlyCounts};
ghost use Rattle.ent_eval.specs.Exchange.{FitsHeld, HasPlace, held_with, taken_from};
ghost use Rattle.ent_eval.specs.LooksOf.{held_by, looks_of};
ghost use Rattle.ent_walk.specs.Answer.{answer, causes_told, recorded};
ghost use Rattle.ent_index.specs.Asked.{asks_policy, asks_row};
ghost use Rattle.ent_log.specs.Tables.{IsSameLog, room_of};
ghost use Rattle.ent_cells.specs.Cell.{HasReadKeys, IsRightBut, answers_in, cell_of, failures_in};
ghost use Rattle.ent_cells.specs.Cell.{reads_any, renewed};
ghost use Rattle.ent_cells.specs.Cell.{unlike_count};
ghost use Rattle.ent_cells.specs.Count.{Counts, CountsAtMost, raised};
ghost use Rattle.ent_cells.specs.Old.{AreOld, IsLogged};
ghost use Rattle.ent_cells.specs.Shape.{without, woven};
ghost use Rattle.ent_cells.specs.proofs_only.Grouping.{shown, shown_kept};

use crate::added::push_all;
use crate::blocks::{Blocks, keep_present, remove_blocks, remove_from, weave};
use crate::cell::Cell;
use crate::phases::{commit_all, give_up_all, prepare};
use crate::store::Store;
use ent_eval::{Answer, Evaluates, Exchange, Explained, Pdp, ReadKey, Request, Who};
use ent_finder::RowKey;
use ent_log::{Log, OldAnswer};
use ent_policy::Kind;
use ent_values::{Items, Shared};
use std::alloc::{AllocError, Global};
use std::marker::Model;

/// An evaluator, and the cells of a table of its answers in list order. An edit of what is held answers anew exactly
/// those that read what it changes.
#[derive(Drop)]
pub struct Live<E: Evaluates> {
    alloc: Global,
    store: Store<E>,
    keys: Vec<usize>,
}

impl<E: Evaluates> Model for Live<E> {
    ghost use Rattle.ent_request.specs.contracts.answer.Answer as answer;
    ghost use Rattle.ent_request.specs.contracts.key.ReadKey as key;
    ghost use Rattle.ent_eval.specs.contracts.who.Who as whose;
    ghost use Rattle.ent_cells.specs.Cell.{Cells};
    ghost use Rattle.ent_cells.specs.proofs_only.Codes.{cells_code};

    ghost Value = { Cells };

    ghost coded = { cells_code whose.the_row.coded answer.the_row.coded key.the_row.coded };

    ghost use Rattle.ent_cells.specs.Entries.{IsLive, kept_of};

    ghost view = { λ l. record {
      kept = kept_of l.store.cells l.keys.items;
      evaluator = l.store.evaluator;
    } };

    ghost invariant = { λ l. IsLive l.store.cells l.keys.items };
}

impl<E: Evaluates> Live<E> {
    /// No cells of an evaluator's requests, for which nothing is allocated.
    ///
    /// Its contract is an equation.
    pub fn new(alloc: Global, evaluator: E) -> Live<E>
        ensures kept { result.kept ≡ [] }
        ensures evaluator { result.evaluator ≡ E.evaluator evaluator }
    {
        Live {
            alloc,
            store: Store::new(alloc, evaluator),
            keys: Vec::new(alloc),
        }
    }

    /// How many cells there are.
    ///
    /// Its contract is an equation.
    pub fn len(&self) -> usize
        ensures { result ≡ length self.now.kept }
    {
        self.keys.len()
    }

    /// The cell at a place in list order.
    fn cell(&self, place: usize) -> Option<&Cell>
        ensures cell { option_map shown (option_copied result) ≡ slice_get (map shown_kept self.now.kept) place }
        ensures within { IfSome result (λ _. place < usize.MAX) }
    {
        let key = self.keys.get(place)?;
        let cell = self.store.under(*key)?;
        Some(cell)
    }

    /// The answer at a place in list order, as its owner.
    ///
    /// Its contract is an equation.
    pub fn shared_answer(&self, place: usize) -> Option<&Shared<Answer>>
        ensures answer { option_copied result ≡ slice_get (answers_in self.now.kept) place }
        ensures within { IfSome result (λ _. place < usize.MAX) }
    {
        let cell = self.cell(place)?;
        Some(&cell.said.answer)
    }

    /// Whether a part of the evaluation at a place in list order came to Indeterminate by itself (section 5.55),
    /// whatever the answer is.
    ///
    /// Its contract is an equation.
    pub fn failed(&self, place: usize) -> Option<bool>
        ensures { result ≡ slice_get (failures_in self.now.kept) place }
    {
        let cell = self.cell(place)?;
        Some(cell.said.failed)
    }

    /// The answer at a place in list order.
    ///
    /// Its contract is an equation.
    pub fn answer(&self, place: usize) -> Option<&Answer>
        ensures answer { option_copied result ≡ slice_get (answers_in self.now.kept) place }
        ensures within { IfSome result (λ _. place < usize.MAX) }
    {
        let answer = self.shared_answer(place)?;
        Some(answer.get())
    }

    /// The answer at a place in list order, and the place behind it.
    ///
    /// Its contract is an equation.
    pub fn next_from(&self, place: usize) -> Option<(&Answer, usize)>
        ensures { MatchOption result
            (drop place (answers_in self.now.kept) ≡ [])
            (λ next. drop place (answers_in self.now.kept) ≡ next.0.now ∷ drop next.1 (answers_in self.now.kept)) }
    {
        let answer = self.answer(place)?;
        Some((answer, place + 1))
    }

    /// Makes each cell right again, where those that read none of the changed keys are, and tells the old answers of
    /// those that get another one. It answers anew the cells whose own reads have a changed key, each once, no other.
    /// There is room in the log for the old answers then, and for the answer of each cell; nothing is logged. After a
    /// refusal the cells are as before.
    ///
    /// Its contract leaves open: which numbers new questions get, how much room the log has above what is asked for;
    /// after a refusal how many evaluations were counted, between none and those of the cells that are touched. The old
    /// answers are said by what they undo, whichever list does.
    pub fn settle(
        &mut self,
        log: &mut Log<Who, Answer>,
        changed: &[ReadKey],
    ) -> Result<Items<OldAnswer<Who, Answer>>, AllocError>
        requires { AllByRecursion (IsRightBut changed.now (looks_of self.old.evaluator.pdp)) self.old.kept }
        ensures ok { OnOk result
            (self.new.kept ≡ map (renewed (looks_of self.old.evaluator.pdp)) self.old.kept) }
        ensures olds { IfOk result (λ olds. AreOld olds self.old.kept self.new.kept) }
        ensures changes { IfOk result
            (λ olds. length olds ≡ unlike_count (answers_in self.old.kept) (answers_in self.new.kept)) }
        ensures room { IfOk result (λ olds. length olds + length self.new.kept ≤ room_of log.new) }
        ensures log { IsSameLog log.old log.new }
        ensures grows { room_of log.old ≤ room_of log.new }
        ensures err { OnErr result (self.new.kept ≡ self.old.kept) }
        ensures counted { OnOk result
            (Counts self.old.evaluator.pdp.evaluations self.new.evaluator.pdp.evaluations
            (count_by (reads_any changed.now) self.old.kept)) }
        ensures bound { CountsAtMost self.old.evaluator.pdp.evaluations self.new.evaluator.pdp.evaluations
            (count_by (reads_any changed.now) self.old.kept) }
        ensures rest { OnlyCounts self.old.evaluator.pdp self.new.evaluator.pdp }
    {
        let touched = self.store.touched(changed)?;
        let keys = touched.as_slice();
        match prepare(self.alloc, &mut self.store, log, keys, self.keys.len()) {
            Ok(olds) => {
                commit_all(&mut self.store, keys);
                Ok(olds)
            }
            Err(error) => {
                give_up_all(&mut self.store, keys);
                Err(error)
            }
        }
    }

    /// Adds the cells of a new name behind those that each of the blocks has, or last where there are no blocks, and
    /// evaluates each of them once and no other. After a refusal the cells are as before.
    ///
    /// Its contract leaves open: which numbers new questions get; after a refusal how many evaluations were counted,
    /// between none and those of the new cells.
    pub fn add(&mut self, blocks: Blocks, requests: Items<Shared<Who>>) -> Result<(), AllocError>
        ensures ok { OnOk result (self.new.kept ≡ woven blocks.count blocks.width blocks.each self.old.kept
            (map (cell_of (looks_of self.old.evaluator.pdp)) requests)) }
        ensures err { OnErr result (self.new.kept ≡ self.old.kept) }
        ensures counted { OnOk result (Counts self.old.evaluator.pdp.evaluations
            self.new.evaluator.pdp.evaluations (length requests)) }
        ensures bound { CountsAtMost self.old.evaluator.pdp.evaluations
            self.new.evaluator.pdp.evaluations (length requests) }
        ensures rest { OnlyCounts self.old.evaluator.pdp self.new.evaluator.pdp }
    {
        let start = self.len();
        self.append(blocks.each, requests)?;
        if blocks.count == 0 {
            return Ok(());
        }
        match Vec::with_capacity(self.alloc, self.len()) {
            Ok(room) => {
                self.arrange(room, start, blocks);
                Ok(())
            }
            Err(error) => {
                self.truncate(start);
                Err(error)
            }
        }
    }

    /// The answer to any request, of a cell or not. One that has three ids and nothing else may be answered by what is
    /// remembered. The cells are as before, and one evaluation is counted, also after a refusal.
    ///
    /// Its contract leaves open: which numbers new questions get.
    pub fn answer_to(&mut self, request: &Request) -> Result<Shared<Answer>, AllocError>
        ensures answer { IfOk result (λ a. a ≡ answer (looks_of self.old.evaluator.pdp) request.now) }
        ensures kept { self.new.kept ≡ self.old.kept }
        ensures counted { self.new.evaluator.pdp.evaluations ≡ raised self.old.evaluator.pdp.evaluations 1 }
        ensures rest { OnlyCounts self.old.evaluator.pdp self.new.evaluator.pdp }
    {
        self.store.answer_to(request)
    }

    /// The same answer, the look-ups that it rests on, and its causes. The cells are as before, and one evaluation is
    /// counted, also after a refusal.
    ///
    /// Its contract leaves open: which numbers questions have stays as it is; all else is said wherever it answers
    /// `Ok`.
    pub fn explain(&mut self, request: &Request) -> Result<Explained, AllocError>
        ensures answer { IfOk result (λ e. e.answer ≡ answer (looks_of self.old.evaluator.pdp) request.now) }
        ensures reads { IfOk result (λ e. e.reads ≡ recorded (looks_of self.old.evaluator.pdp) request.now) }
        ensures causes { IfOk result
            (λ e. e.causes ≡ causes_told (looks_of self.old.evaluator.pdp) request.now) }
        ensures kept { self.new.kept ≡ self.old.kept }
        ensures counted { self.new.evaluator.pdp.evaluations ≡ raised self.old.evaluator.pdp.evaluations 1 }
        ensures rest { OnlyCounts self.old.evaluator.pdp self.new.evaluator.pdp }
    {
        self.store.explain(request)
    }

    /// Exchanges one thing of what is held with what stands there, and can then take it back without memory. The cells
    /// are as before, so that they may not be right until they are settled.
    ///
    /// Its contract leaves open: whether it is refused where there is no place for it, and what the evaluator
    /// remembers.
    pub fn exchange(&mut self, exchange: &mut Exchange) -> Result<(), AllocError>
        requires { FitsHeld (held_by self.old.evaluator.pdp) exchange.old }
        ensures made { OnOk result (held_by self.new.evaluator.pdp
            ≡ held_with (held_by self.old.evaluator.pdp) exchange.old) }
        ensures taken { OnOk result (exchange.new ≡ taken_from (held_by self.old.evaluator.pdp) exchange.old) }
        ensures again { OnOk result (FitsHeld (held_by self.new.evaluator.pdp) exchange.new) }
        ensures there { OnOk result (HasPlace self.new.evaluator.pdp exchange.new) }
        ensures absent { OnErr result (¬ HasPlace self.old.evaluator.pdp exchange.old) }
        ensures stayed { OnErr result (held_by self.new.evaluator.pdp ≡ held_by self.old.evaluator.pdp) }
        ensures counted { self.new.evaluator.pdp.evaluations ≡ self.old.evaluator.pdp.evaluations }
        ensures rest { self.new ≡ record self.old { evaluator = self.new.evaluator } }
    {
        self.store.exchange(exchange)
    }

    /// The decision point that evaluates the cells.
    ///
    /// Its contract is an equation.
    pub fn pdp(&self) -> &Pdp<E::Attributes, E::Policies>
        ensures { result.now ≡ self.now.evaluator.pdp }
    {
        self.store.pdp()
    }

    /// Drops the cells of a name, which stand from place `from` on in each of the blocks, and logs their answers. It
    /// takes no memory.
    ///
    /// Its contract leaves open: which old answers are logged, as long as they undo the change.
    pub fn narrow(&mut self, log: &mut Log<Who, Answer>, blocks: Blocks, from: usize)
        requires room { length self.old.kept ≤ room_of log.old }
        ensures evaluator { self.new.evaluator ≡ self.old.evaluator }
        ensures cells { self.new.kept ≡ without blocks.count blocks.width from blocks.each self.old.kept }
        ensures logged { IsLogged self.old.kept self.new.kept log.old log.new }
        ensures from { log.new.from ≡ log.old.from }
        ensures serial { log.new.serial ≡ log.old.serial }
        ensures room { length self.new.kept ≤ room_of log.new }
    {
        remove_blocks(&mut self.store, log, &self.keys, blocks, from);
        keep_present(&mut self.keys, &self.store);
    }

    /// Keys whose values a row may change, among them each on which an answer rests.
    ///
    /// Its contract leaves open: which other keys are among them: a list of all keys would do.
    pub fn keys_of_row(&self, row: &RowKey) -> Result<Items<ReadKey>, AllocError>
        ensures { IfOk result (HasReadKeys (asks_row row.now) self.now.kept) }
    {
        self.store.keys_of_row(row)
    }

    /// References of a kind and an id, among them each on which an answer rests.
    ///
    /// Its contract leaves open: which other references are among them: a list of all would do.
    pub fn keys_of_policy(&self, kind: Kind, id: &str) -> Result<Items<ReadKey>, AllocError>
        ensures { IfOk result (HasReadKeys (asks_policy kind id.now) self.now.kept) }
    {
        self.store.keys_of_policy(kind, id)
    }

    /// Keeps the first cells. It takes no memory.
    fn truncate(&mut self, len: usize)
        ensures cells { self.new.kept ≡ take len self.old.kept }
        ensures evaluator { self.new.evaluator ≡ self.old.evaluator }
    {
        remove_from(&mut self.store, &self.keys, len);
        keep_present(&mut self.keys, &self.store);
    }

    /// Moves the cells from place `start` on behind the blocks before it. It takes no memory but the room that it is
    /// given.
    fn arrange(&mut self, mut room: Vec<usize>, start: usize, blocks: Blocks)
        requires start { start ≤ length self.old.kept }
        requires empty { room.items ≡ [] }
        requires room { length self.old.kept ≤ vec_capacity room }
        ensures cells { self.new.kept ≡ woven blocks.count blocks.width blocks.each
            (take start self.old.kept) (drop start self.old.kept) }
        ensures evaluator { self.new.evaluator ≡ self.old.evaluator }
    {
        let (keys, added) = self.keys.split_at(start);
        weave(
            &mut room,
            keys,
            added,
            blocks.count,
            blocks.width,
            blocks.each,
        );
        self.keys = room;
    }

    /// Evaluates requests that have no cells, and puts their cells last. After a refusal the cells are as before.
    fn append(&mut self, apart: usize, requests: Items<Shared<Who>>) -> Result<(), AllocError>
        ensures ok { OnOk result
            (self.new.kept ≡ self.old.kept ++ map (cell_of (looks_of self.old.evaluator.pdp)) requests) }
        ensures err { OnErr result (self.new.kept ≡ self.old.kept) }
        ensures counted { OnOk result (Counts self.old.evaluator.pdp.evaluations
            self.new.evaluator.pdp.evaluations (length requests)) }
        ensures bound { CountsAtMost self.old.evaluator.pdp.evaluations
            self.new.evaluator.pdp.evaluations (length requests) }
        ensures rest { OnlyCounts self.old.evaluator.pdp self.new.evaluator.pdp }
    {
        let start = self.len();
        match push_all(&mut self.store, &mut self.keys, apart, requests) {
            Ok(()) => Ok(()),
            Err(error) => {
                self.truncate(start);
                Err(error)
            }
        }
    }
}
