//! The desk: a review, and the marks of its sessions.

ghost use Rattle.std.specs.Prelude.{◌≡◌, ◌<◌, ◌≤◌, IfOk, None, Some, option_copied};
ghost use Rattle.ent_cells.specs.Count.{raised};
ghost use Rattle.ent_table.specs.Ask.{answer_in};
ghost use Rattle.ent_table.specs.Rests.{causes_in, recorded_in};
ghost use Rattle.ent_table.specs.Change.{Edits, IsIdle, IsSure};
ghost use Rattle.ent_table.specs.Counted.{IsCounted};
ghost use Rattle.ent_table.specs.Step.{step};
ghost use Rattle.ent_table.specs.Tables.{table_at_serial};
ghost use Rattle.ent_report.specs.Desk.{IsNoticed, IsNoticedIn, IsReported, review_of};
ghost use Rattle.ent_report.specs.Kept.{Forgets, Remembers};
ghost use Rattle.ent_report.specs.Known.{known_of};
ghost use Rattle.ent_report.specs.Notices.{notices};
ghost use Rattle.ent_report.specs.Reports.{by_rule, can, counts, who};
ghost use Rattle.ent_report.specs.Serials.{mark_serials, oldest};
ghost use Rattle.ent_report.specs.World.{marked, unmarked};

use crate::counts::{Counts, counted};
use crate::fault::{NoticeFault, ReportFault};
use crate::notices::{Notice, notices_of};
use crate::reports::{by_rule_in, can_in, who_in};
use ent_eval::{Answer, Evaluates, Explained, Request};
use ent_table::{Accepted, Edit, EditFault, List, Review};
use ent_values::{Items, Shared, Text};
use std::alloc::{AllocError, Global};
use std::marker::Model;

/// How many sessions there are. They are numbered from 0 on.
pub const SESSIONS: u8 = 16;

/// A review, and for each of sixteen sessions the serial of the table that it marked last, if it did. The review keeps
/// what edits changed since the oldest mark, and nothing from before it. Counts of the table may be kept until the next
/// edit.
#[derive(Drop)]
pub struct Desk<E: Evaluates> {
    pub(crate) alloc: Global,
    pub(crate) review: Review<E>,
    pub(crate) marks: [Option<u64>; 16],
    // The counts of the present table, if they were kept since the last edit.
    pub(crate) counts: Option<Counts>,
}

impl<E: Evaluates> Model for Desk<E> {
    ghost use Rattle.ent_report.specs.Desk.{Desked};
    ghost use Rattle.ent_report.specs.proofs_only.Codes.{desked_code};

    ghost Value = { Desked };

    ghost coded = { desked_code };

    ghost use Rattle.ent_report.specs.Desk.{IsReady, desk_of};

    ghost view = { λ d. desk_of d.review d.marks d.counts };

    ghost invariant = { λ d. IsReady d.review d.marks d.counts };
}

/// The oldest mark, or the serial where there is none.
fn oldest(marks: &[Option<u64>], serial: u64) -> u64
    ensures { result ≡ oldest marks.now serial }
{
    let mut least = serial;
    for mark in marks {
        if let Some(mark) = mark {
            least = least.min(*mark);
        }
    }
    least
}

impl<E: Evaluates> Desk<E> {
    /// A desk with a review and no marks.
    ///
    /// Its contract is an equation.
    pub fn new(alloc: Global, review: Review<E>) -> Desk<E>
        ensures world { result.world ≡ record { state = review.state; marks = unmarked } }
        ensures past { result.past ≡ review.past }
        ensures evaluations { result.evaluations ≡ review.evaluations }
        ensures counts { result.counts ≡ None }
    {
        Desk {
            alloc,
            review,
            marks: [
                None, None, None, None, None, None, None, None, None, None, None, None, None, None,
                None, None,
            ],
            counts: None,
        }
    }

    /// The review.
    ///
    /// Its contract is an equation.
    pub fn review(&self) -> &Review<E>
        ensures { result.now ≡ review_of self.now }
    {
        &self.review
    }

    /// The serial of each session's mark, in the order of the sessions.
    ///
    /// Its contract is an equation.
    pub fn marks(&self) -> &[Option<u64>]
        ensures { result.now ≡ mark_serials self.now.world }
    {
        &self.marks
    }

    /// Forgets what changed before the oldest mark, or before now where there is none. The marks stay.
    fn forget(&mut self)
        ensures rest { self.new ≡ record self.old { past = self.new.past } }
        ensures forgotten { Forgets self.old self.new }
    {
        let oldest = oldest(&self.marks, self.review.serial());
        self.review.forget_before(oldest);
    }

    /// Makes an edit of the review. The marks stay. Once it is made, kept counts are forgotten, and nothing is kept of
    /// what changed before the oldest mark. An edit that is refused forgets nothing.
    ///
    /// An accepted edit counts one evaluation of each cell that it touches. Dropping a name evaluates nothing and takes
    /// no memory.
    ///
    /// Its contract is an equation but for memory.
    pub fn edit(&mut self, edit: Edit) -> Result<Accepted, EditFault>
        ensures step { Edits (λ s. step s edit) self.old.world.state self.new.world.state result }
        ensures sure { IsSure edit self.old.world.state result }
        ensures idle { IsIdle edit self.old.evaluations self.new.evaluations }
        ensures counted { IsCounted (step self.old.world.state edit) self.old.world.state
            self.old.evaluations self.new.evaluations result }
        ensures marks { self.new.world.marks ≡ self.old.world.marks }
        ensures remembered { Remembers self.old self.new result }
    {
        let accepted = self.review.edit(edit)?;
        self.counts = None;
        self.forget();
        Ok(accepted)
    }

    /// The answer to any request, listed or not, by what is held alone (section 7): neither the table nor a mark has a
    /// part in it.
    ///
    /// Each call counts as one evaluation, also one that is refused for want of memory. It changes nothing but the
    /// count, which stays at its greatest value.
    ///
    /// # Errors
    ///
    /// `AllocError` if memory runs out.
    ///
    /// Its contract is an equation but for memory.
    pub fn ask(&mut self, request: &Request) -> Result<Answer, AllocError>
        ensures answer { IfOk result (λ a. a ≡ answer_in self.old.world.state request.now) }
        ensures rest { self.new ≡ record self.old { evaluations = raised self.old.evaluations 1 } }
    {
        self.review.ask(request)
    }

    /// The same, as one of its owners: who only reads the answer makes no copy of it.
    ///
    /// # Errors
    ///
    /// `AllocError` if memory runs out.
    ///
    /// Its contract is an equation but for memory.
    pub fn ask_shared(&mut self, request: &Request) -> Result<Shared<Answer>, AllocError>
        ensures answer { IfOk result (λ a. a ≡ answer_in self.old.world.state request.now) }
        ensures rest { self.new ≡ record self.old { evaluations = raised self.old.evaluations 1 } }
    {
        self.review.ask_shared(request)
    }

    /// The answer to any request, listed or not, with the look-ups that it rests on, each once, and its causes: the
    /// parts that came to Indeterminate by themselves, that of the answer first, the others in the order of evaluation.
    /// The answer is that of `ask`, and the call counts as that does.
    ///
    /// # Errors
    ///
    /// `AllocError` if memory runs out.
    ///
    /// Its contract is an equation but for memory.
    pub fn explain(&mut self, request: &Request) -> Result<Explained, AllocError>
        ensures answer { IfOk result (λ e. e.answer ≡ answer_in self.old.world.state request.now) }
        ensures reads { IfOk result (λ e. e.reads ≡ recorded_in self.old.world.state request.now) }
        ensures causes { IfOk result (λ e. e.causes ≡ causes_in self.old.world.state request.now) }
        ensures rest { self.new ≡ record self.old { evaluations = raised self.old.evaluations 1 } }
    {
        self.review.explain(request)
    }

    /// Marks the present table for a session in place of its last mark, and gives the number of edits so far. It takes
    /// no memory, so there is always a serial. Nothing is evaluated, and nothing is kept of what changed before the
    /// mark that is now the oldest.
    ///
    /// Its contract leaves open: how much is forgotten of the tables before the oldest mark.
    pub fn mark(&mut self, session: u8) -> Result<u64, AllocError>
        requires { session < 16 }
        ensures serial { result ≡ Ok self.old.world.state.serial }
        ensures rest { self.new
            ≡ record self.old { world = marked self.old.world session; past = self.new.past } }
        ensures forgotten { Forgets self.old self.new }
    {
        let serial = self.review.serial();
        self.marks[session as usize] = Some(serial);
        self.forget();
        Ok(serial)
    }

    /// The requests whose answers differ between the table at a serial that is known and now.
    fn difference(&self, serial: u64) -> Result<Items<Notice>, AllocError>
        requires kept { self.now.past.from ≤ serial }
        requires reached { serial ≤ self.now.world.state.serial }
        ensures { IfOk result
            (λ ns. ns ≡ notices (table_at_serial (review_of self.now) serial) self.now.world.state) }
    {
        let changes = self.review.changes_since(serial)?;
        notices_of(self.alloc, changes)
    }

    /// The requests whose answers differ between the session's mark and now, in byte order of person, then action, then
    /// resource. The mark stays. It takes time in proportion to what edits changed since the mark, times a logarithm.
    ///
    /// Its contract is an equation but for memory.
    pub fn notices(&self, session: u8) -> Result<Items<Notice>, NoticeFault>
        requires { session < 16 }
        ensures { IsNoticedIn self.now.world session result }
    {
        let Some(serial) = self.marks[session as usize] else {
            return Err(NoticeFault::NoMark);
        };
        Ok(self.difference(serial)?)
    }

    /// The requests whose answers differ between the table at a serial and now, in byte order of person, then action,
    /// then resource. Tables are known from the oldest mark on, or where there is none the present one alone. No mark
    /// moves. It takes time in proportion to what edits changed since the serial, times a logarithm.
    ///
    /// # Errors
    ///
    /// `NoticeFault::NoMark` if the table at the serial isn't known; `NoticeFault::Memory` if memory runs out.
    ///
    /// Its contract is an equation but for memory.
    pub fn changes_since(&self, serial: u64) -> Result<Items<Notice>, NoticeFault>
        ensures { IsNoticed (known_of self.now serial) self.now.world.state result }
    {
        if serial < self.review.kept_from() || self.review.serial() < serial {
            return Err(NoticeFault::NoMark);
        }
        Ok(self.difference(serial)?)
    }

    /// Counts the cells of each decision.
    fn counted(&self) -> Counts
        ensures { result ≡ counts self.now.world.state }
    {
        // There are no more cells than a machine word can count, so no count exceeds its type.
        let _count = self.review.cell_count();
        counted(self.review.cells())
    }

    /// How many cells have each decision. It takes no memory, and visits no cell where `keep_counts` was called since
    /// the last edit.
    ///
    /// Its contract is an equation.
    pub fn counts(&self) -> Counts
        ensures { result ≡ counts self.now.world.state }
    {
        match self.counts {
            Some(counts) => counts,
            None => self.counted(),
        }
    }

    /// Counts the cells of each decision if that wasn't done since the last edit, and keeps the counts until the next
    /// one. It takes no memory.
    ///
    /// Its contract is an equation.
    pub fn keep_counts(&mut self)
        ensures { self.new ≡ record self.old { counts = Some (counts self.old.world.state) } }
    {
        self.counts = Some(self.counts());
    }

    /// What a person may do: the actions and resources of the person's Permit cells, in list order.
    ///
    /// Its contract is an equation but for memory.
    pub fn can(&self, person: &str) -> Result<Items<(Text, Text)>, ReportFault>
        ensures { IsReported (can self.now.world.state person.now) result }
    {
        if !self.review.listed(List::People, person) {
            return Err(ReportFault::NotThere);
        }
        Ok(can_in(self.alloc, self.review.cells_of(person))?)
    }

    /// Who may do an action to a resource: the people of the Permit cells, in list order.
    ///
    /// Its contract is an equation but for memory.
    pub fn who(&self, action: &str, resource: &str) -> Result<Items<Text>, ReportFault>
        ensures { IsReported (who self.now.world.state action.now resource.now) result }
    {
        if !self.review.listed(List::Actions, action)
            || !self.review.listed(List::Resources, resource)
        {
            return Err(ReportFault::NotThere);
        }
        Ok(who_in(self.alloc, self.review.answers_to(action, resource))?)
    }

    /// The requests whose decision was given by that rule of a policy, or without a rule by the default of a policy or
    /// policy set, in list order. Of the path to it only the last id counts. A rule that gave nothing has no requests.
    ///
    /// # Errors
    ///
    /// `ReportFault::Memory` if memory runs out, and never `ReportFault::NotThere`.
    ///
    /// Its contract is an equation but for memory.
    pub fn by_rule(
        &self,
        policy: &str,
        rule: Option<&str>,
    ) -> Result<Items<(Text, Text, Text)>, ReportFault>
        ensures { IsReported (Ok (by_rule self.now.world.state policy.now (option_copied rule.entry))) result }
    {
        Ok(by_rule_in(self.alloc, policy, rule, self.review.cells())?)
    }
}
