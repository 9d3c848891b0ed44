//! Cells under keys that last, and the groups in which they are.

ghost use Rattle.std.specs.Prelude.{◌≡◌, ℕ, cond, IfOk, IsSome, None, OnErr, OnOk};
ghost use Rattle.std.specs.Prelude.{option_and_then, option_copied, option_map};
ghost use Rattle.slab.specs.Slab.{Updates, get};
ghost use Rattle.ent_eval.specs.Evaluator.{OnlyCounts};
ghost use Rattle.ent_eval.specs.Exchange.{FitsHeld, HasPlace, held_with, taken_from};
ghost use Rattle.ent_eval.specs.LooksOf.{held_by, looks_of};
ghost use Rattle.ent_walk.specs.Answer.{answer, causes_told, recorded};
ghost use Rattle.ent_index.specs.Asked.{asks_policy, asks_row};
ghost use Rattle.ent_cells.specs.Cell.{says};
ghost use Rattle.ent_cells.specs.Count.{Counts, CountsAtMost, raised};
ghost use Rattle.ent_cells.specs.Grid.{times};
ghost use Rattle.ent_cells.specs.proofs_only.Asked.{HasKeysOf};
ghost use Rattle.ent_cells.specs.proofs_only.Entries.{Becomes, Inserts, IsFree, entry_of_cell, given_up};
ghost use Rattle.ent_cells.specs.proofs_only.Entries.{no_entries, settled, touched_at};
ghost use Rattle.ent_cells.specs.proofs_only.Grouping.{shown, shown_entry};
ghost use Rattle.ent_cells.specs.proofs_only.Logging.{old_at, old_of};
ghost use Rattle.ent_cells.specs.proofs_only.Phases.{made_ready};

use crate::asked::{keys_of_row, references};
use crate::cell::{Cell, Grouped};
use crate::confirm::keep_touched;
use crate::evaluate::evaluate;
use crate::old::{gone_answer, old_answer_under};
use crate::sharing::{group_of_first, shared_answer};
use crate::steps::{drop_next, enter, leave, make_ready, regroup, say_next};
use ent_eval::{Answer, Evaluates, Exchange, Explained, Pdp, ReadKey, Request, Who};
use ent_finder::RowKey;
use ent_index::{Groups, Wanted};
use ent_log::OldAnswer;
use ent_policy::Kind;
use ent_values::{Items, Shared};
use slab::Slab;
use std::alloc::{AllocError, Global};
use std::marker::Model;

/// An evaluator, cells of its requests under keys, and the groups of the cells for whose answers the same is asked: a
/// cell is in its group, and in that of what is ready of it. Which keys a cell reads is told by the evaluator's
/// questions, whose numbers its group has.
#[derive(Drop)]
pub(crate) struct Store<E: Evaluates> {
    alloc: Global,
    evaluator: E,
    slab: Slab<Cell>,
    groups: Groups,
}

impl<E: Evaluates> Model for Store<E> {
    ghost use Rattle.ent_request.specs.contracts.answer.Answer as answer;
    ghost use Rattle.ent_request.specs.contracts.key.ReadKey as key;
    ghost use Rattle.ent_eval.specs.contracts.who.Who as whose;
    ghost use Rattle.ent_cells.specs.Entries.{Stored};
    ghost use Rattle.ent_cells.specs.proofs_only.Codes.{stored_code};

    ghost Value = { Stored };

    ghost coded = { stored_code whose.the_row.coded answer.the_row.coded key.the_row.coded };

    ghost use Rattle.ent_cells.specs.proofs_only.Grouping.{IsStore, seen};

    ghost view = { λ s. record {
      cells = seen (E.evaluator s.evaluator).questions s.groups s.slab;
      evaluator = E.evaluator s.evaluator;
    } };

    ghost invariant = { λ s. IsStore (E.evaluator s.evaluator).questions s.groups s.slab };
}

impl<E: Evaluates> Store<E> {
    /// No cells of an evaluator's requests, for which nothing is allocated.
    pub(crate) fn new(alloc: Global, evaluator: E) -> Store<E>
        ensures cells { result.cells ≡ no_entries }
        ensures evaluator { result.evaluator ≡ E.evaluator evaluator }
    {
        Store {
            alloc,
            evaluator,
            slab: Slab::new(alloc),
            groups: Groups::new(alloc),
        }
    }

    /// The cell under a key.
    pub(crate) fn under(&self, key: usize) -> Option<&Cell>
        ensures { option_map shown (option_copied result) ≡ option_map shown_entry (get self.now.cells key) }
    {
        self.slab.get(key)
    }

    /// Evaluates the cell under a key, and makes ready what that says, which may share it with the cells under others.
    /// After a refusal the cells are as before.
    pub(crate) fn prepare(&mut self, key: usize, beside: &[usize]) -> Result<(), AllocError>
        requires { IsFree (get self.old.cells key) }
        ensures ok { OnOk result
            (Becomes (made_ready (looks_of self.old.evaluator.pdp)) key self.old.cells self.new.cells) }
        ensures err { OnErr result (self.new.cells ≡ self.old.cells) }
        ensures counted { OnOk result
            (Counts self.old.evaluator.pdp.evaluations self.new.evaluator.pdp.evaluations 1) }
        ensures bound { CountsAtMost self.old.evaluator.pdp.evaluations self.new.evaluator.pdp.evaluations 1 }
        ensures rest { OnlyCounts self.old.evaluator.pdp self.new.evaluator.pdp }
    {
        let Some(cell) = self.slab.get(key) else {
            unreachable!();
        };
        let evaluation = evaluate(&mut self.evaluator, cell.who.get())?;
        let answer = shared_answer(&self.slab, key, beside, evaluation.answer)?;
        let near = group_of_first(&self.slab, beside);
        let asked = evaluation.asked.get().as_slice();
        let group = regroup(&mut self.groups, key, cell.said.group, asked, near)?;
        let failed = evaluation.failed;
        make_ready(
            &mut self.slab,
            key,
            Grouped {
                answer,
                failed,
                group,
            },
        );
        Ok(())
    }

    /// The old answer of the cell under a key, if another one is ready of it.
    pub(crate) fn old_answer(
        &self,
        key: usize,
    ) -> Result<Option<OldAnswer<Who, Answer>>, AllocError>
        ensures { IfOk result (λ old. old ≡ option_and_then old_at (get self.now.cells key)) }
    {
        old_answer_under(&self.slab, key)
    }

    /// Says of the cell under a key what is ready of it. It takes no memory.
    pub(crate) fn commit(&mut self, key: usize)
        requires { IsSome (get self.old.cells key) }
        ensures cells { Becomes settled key self.old.cells self.new.cells }
        ensures evaluator { self.new.evaluator ≡ self.old.evaluator }
    {
        say_next(&mut self.slab, &mut self.groups, key);
    }

    /// Gives up what is ready of the cell under a key. It takes no memory.
    pub(crate) fn give_up(&mut self, key: usize)
        requires { IsSome (get self.old.cells key) }
        ensures cells { Becomes given_up key self.old.cells self.new.cells }
        ensures evaluator { self.new.evaluator ≡ self.old.evaluator }
    {
        drop_next(&mut self.slab, &mut self.groups, key);
    }

    /// Evaluates a request that has no cell, puts its cell in, and gives its key. It may share what is said with the
    /// cells under some keys. After a refusal the cells are as before.
    pub(crate) fn insert(&mut self, who: Shared<Who>, beside: &[usize]) -> Result<usize, AllocError>
        ensures ok { IfOk result (Inserts (entry_of_cell who (says (looks_of self.old.evaluator.pdp) who))
            self.old.cells self.new.cells) }
        ensures err { OnErr result (self.new.cells ≡ self.old.cells) }
        ensures counted { OnOk result
            (Counts self.old.evaluator.pdp.evaluations self.new.evaluator.pdp.evaluations 1) }
        ensures bound { CountsAtMost self.old.evaluator.pdp.evaluations self.new.evaluator.pdp.evaluations 1 }
        ensures rest { OnlyCounts self.old.evaluator.pdp self.new.evaluator.pdp }
    {
        self.slab.reserve(1)?;
        let key = self.slab.vacant_key();
        let evaluation = evaluate(&mut self.evaluator, who.get())?;
        let answer = shared_answer(&self.slab, key, beside, evaluation.answer)?;
        let near = group_of_first(&self.slab, beside);
        let asked = evaluation.asked.get().as_slice();
        let group = enter(&mut self.groups, key, who.get(), asked, near)?;
        let said = Grouped {
            answer,
            failed: evaluation.failed,
            group,
        };
        let next = None;
        Ok(self.slab.insert_reserved(Cell { who, said, next }))
    }

    /// The answer to any request. The cells are as before, also after a refusal.
    pub(crate) fn answer_to(&mut self, request: &Request) -> Result<Shared<Answer>, AllocError>
        ensures answer { IfOk result (λ a. a ≡ answer (looks_of self.old.evaluator.pdp) request.now) }
        ensures cells { self.new.cells ≡ self.old.cells }
        ensures counted { self.new.evaluator.pdp.evaluations ≡ raised self.old.evaluator.pdp.evaluations 1 }
        ensures rest { OnlyCounts self.old.evaluator.pdp self.new.evaluator.pdp }
    {
        self.evaluator.answer(request)
    }

    /// The answer to any request, the look-ups that it rests on, and its causes. The cells are as before, also after a
    /// refusal.
    pub(crate) fn explain(&mut self, request: &Request) -> Result<Explained, AllocError>
        ensures answer { IfOk result (λ e. e.answer ≡ answer (looks_of self.old.evaluator.pdp) request.now) }
        ensures reads { IfOk result (λ e. e.reads ≡ recorded (looks_of self.old.evaluator.pdp) request.now) }
        ensures causes { IfOk result
            (λ e. e.causes ≡ causes_told (looks_of self.old.evaluator.pdp) request.now) }
        ensures cells { self.new.cells ≡ self.old.cells }
        ensures counted { self.new.evaluator.pdp.evaluations ≡ raised self.old.evaluator.pdp.evaluations 1 }
        ensures rest { OnlyCounts self.old.evaluator.pdp self.new.evaluator.pdp }
    {
        self.evaluator.explain(request)
    }

    /// Exchanges one thing of what is held with what stands there. The cells are as before: they may not be right then.
    pub(crate) fn exchange(&mut self, exchange: &mut Exchange) -> Result<(), AllocError>
        requires { FitsHeld (held_by self.old.evaluator.pdp) exchange.old }
        ensures made { OnOk result (held_by self.new.evaluator.pdp
            ≡ held_with (held_by self.old.evaluator.pdp) exchange.old) }
        ensures taken { OnOk result (exchange.new ≡ taken_from (held_by self.old.evaluator.pdp) exchange.old) }
        ensures again { OnOk result (FitsHeld (held_by self.new.evaluator.pdp) exchange.new) }
        ensures there { OnOk result (HasPlace self.new.evaluator.pdp exchange.new) }
        ensures absent { OnErr result (¬ HasPlace self.old.evaluator.pdp exchange.old) }
        ensures kept { OnErr result (held_by self.new.evaluator.pdp ≡ held_by self.old.evaluator.pdp) }
        ensures cells { self.new.cells ≡ self.old.cells }
        ensures counted { self.new.evaluator.pdp.evaluations ≡ self.old.evaluator.pdp.evaluations }
    {
        self.evaluator.exchange(exchange)
    }

    /// The decision point.
    pub(crate) fn pdp(&self) -> &Pdp<E::Attributes, E::Policies>
        ensures { result.now ≡ self.now.evaluator.pdp }
    {
        self.evaluator.pdp()
    }

    /// Takes the cell under a key out, if there is one, and gives its answer. It takes no memory.
    pub(crate) fn remove(&mut self, key: usize) -> Option<OldAnswer<Who, Answer>>
        ensures cells { Updates self.old.cells self.new.cells key None }
        ensures gone { result ≡ option_map (λ e. old_of e.kept) (get self.old.cells key) }
        ensures evaluator { self.new.evaluator ≡ self.old.evaluator }
    {
        let Some(cell) = self.slab.try_remove(key) else {
            return None;
        };
        leave(&mut self.groups, key, &cell);
        Some(gone_answer(cell))
    }

    /// The keys of the cells that read one of the changed keys, each once: the groups say where to look, and a cell's
    /// own group and names decide.
    pub(crate) fn touched(&self, changed: &[ReadKey]) -> Result<Vec<usize>, AllocError>
        ensures { IfOk result
            (λ v. (c : ℕ) → times c v.items ≡ cond (touched_at changed.now (get self.now.cells c)) 1 0) }
    {
        let wanted = Wanted::of(self.alloc, self.evaluator.questions(), changed)?;
        let cells = self.groups.candidates(&wanted)?;
        keep_touched(self.alloc, &self.slab, &self.groups, &cells, &wanted)
    }

    /// The keys whose values a row may change, and on which an answer has rested, whoever it was of.
    pub(crate) fn keys_of_row(&self, row: &RowKey) -> Result<Items<ReadKey>, AllocError>
        ensures { IfOk result (HasKeysOf (asks_row row.now) self.now.cells) }
    {
        keys_of_row(self.alloc, self.evaluator.questions(), row)
    }

    /// The references of a kind and an id on which an answer has rested.
    pub(crate) fn keys_of_policy(&self, kind: Kind, id: &str) -> Result<Items<ReadKey>, AllocError>
        ensures { IfOk result (HasKeysOf (asks_policy kind id.now) self.now.cells) }
    {
        references(self.alloc, self.evaluator.questions().as_slice(), kind, id)
    }
}
