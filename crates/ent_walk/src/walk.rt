//! An evaluation: what it runs over, and how it begins.

ghost use Rattle.std.specs.Prelude.{◌≡◌, [], IfOk, OnOk, Some};
ghost use Rattle.ent_walk.specs.Answer.{answer_part};
ghost use Rattle.ent_request.specs.Note.{failing};
ghost use Rattle.ent_walk.specs.proofs_only.Comes.{Adds, Comes, Keeps, in_walk};
ghost use Rattle.ent_walk.specs.proofs_only.Hops.{followed_part};
ghost use Rattle.ent_walk.specs.Judged.{has_failed};
ghost use Rattle.ent_trace.specs.proofs_only.Noted.{entering, in_rule, leaving, rule_in, settling};
ghost use Rattle.ent_request.specs.Part.{settled};
ghost use Rattle.ent_request.specs.proofs_only.Reason.{what_of};

use crate::lender::Lender;
use crate::node::has_failed;
use ent_policy::{Kind, Reference, Version};
use ent_request::{Answer, LookUps, Reason, Request};
use ent_trace::{Notes, Path};
use ent_values::Text;
use std::alloc::{AllocError, Global};

/// On each path from the root at most this many references are followed. The root itself doesn't count.
const MOST_HOPS: usize = 6;

/// An evaluation of a request over what is held, with what it noted so far.
#[derive(Drop)]
pub struct Walk<'a, L: LookUps> {
    pub(crate) alloc: Global,
    pub(crate) lender: Lender<'a, L>,
    pub notes: Notes,
}

impl<'a, L: LookUps> Walk<'a, L> {
    /// Before its first question.
    ///
    /// Its contract is an equation.
    pub fn over(alloc: Global, held: &'a L, request: &'a Request, notes: Notes) -> Walk<'a, L>
        ensures held { result.lender.held ≡ held.now }
        ensures request { result.lender.request ≡ request.now }
        ensures notes { result.notes ≡ notes }
    {
        Walk {
            alloc,
            lender: Lender::over(alloc, held, request),
            notes,
        }
    }

    // Notes that something fails where the evaluation is.
    pub(crate) fn fail(&mut self, reason: Reason<'_>) -> Result<(), AllocError>
        ensures { OnOk result (Adds (failing (what_of reason.entry)) self.old self.new) }
    {
        self.notes.fail(self.alloc, reason)
    }

    // Goes into a policy or a set.
    #[inline(always)]
    pub(crate) fn enter(
        &mut self,
        kind: Kind,
        id: &Text,
        version: &Version,
    ) -> Result<(), AllocError>
        ensures notes { OnOk result (self.new.notes
            ≡ entering self.old.notes (record { kind = kind; id = id.now; version = version.now })) }
        ensures keeps { OnOk result (Keeps self.old self.new) }
    {
        self.notes.enter(self.alloc, kind, id, version)
    }

    // And out of it.
    #[inline(always)]
    pub(crate) fn leave(&mut self)
        ensures notes { self.new.notes ≡ leaving self.old.notes }
        ensures keeps { Keeps self.old self.new }
    {
        self.notes.leave();
    }

    // Goes into a rule. What it was in before is given.
    #[inline(always)]
    pub(crate) fn enter_rule(&mut self, id: &Text) -> Result<Option<Text>, AllocError>
        ensures notes { OnOk result (self.new.notes ≡ in_rule self.old.notes (Some id.now)) }
        ensures outer { IfOk result (λ outer. outer ≡ rule_in self.old.notes) }
        ensures keeps { OnOk result (Keeps self.old self.new) }
    {
        self.notes.enter_rule(self.alloc, id)
    }

    // And out of it.
    #[inline(always)]
    pub(crate) fn leave_rule(&mut self, outer: Option<Text>)
        ensures notes { self.new.notes ≡ in_rule self.old.notes outer }
        ensures keeps { Keeps self.old self.new }
    {
        self.notes.leave_rule(outer);
    }

    // Behind a part of the evaluation: what failed in it is passed over unless it is Indeterminate. Whether something
    // that failed before it isn't passed over is given.
    #[inline(always)]
    pub(crate) fn settle(&mut self, was_named: bool, is_indeterminate: bool)
        ensures notes { self.new.notes ≡ settling was_named is_indeterminate self.old.notes }
        ensures keeps { Keeps self.old self.new }
    {
        self.notes.settle(was_named, is_indeterminate);
    }

    /// The answer to the request.
    ///
    /// Its contract is an equation but for memory.
    pub fn answer(&mut self) -> Result<Answer, AllocError>
        ensures comes { IfOk result (Comes
            (in_walk L.looks self.old answer_part) self.old self.new) }
    {
        self.notes.note_root(self.alloc)?;
        let held = self.lender.held();
        match held.root() {
            None => Ok(Answer::not_applicable(self.alloc)),
            Some(reference) => self.followed(MOST_HOPS, reference),
        }
    }

    // What the root's document comes to, where so many references may be followed on the way down from there.
    fn followed(&mut self, hops: usize, reference: &Reference) -> Result<Answer, AllocError>
        ensures comes { IfOk result (Comes
            (settled has_failed (in_walk L.looks self.old followed_part hops [] reference.now))
            self.old self.new) }
    {
        let was_named = self.notes.is_named();
        let opened = self.open_followed(hops, reference)?;
        let answer = self.judge(&Path::Root, opened)?;
        self.settle(was_named, has_failed(&answer));
        Ok(answer.unwrap_or(Answer::not_applicable(self.alloc)))
    }
}
