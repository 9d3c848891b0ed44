//! What an evaluation notes of its questions.

ghost use Rattle.std.specs.Prelude.{◌≡◌, [], IfOk, IfSome, OnOk, Some, None, false, if◌then◌else◌};
ghost use Rattle.std.specs.List.{flat_map};
ghost use Rattle.ent_request.specs.Causes.{named_first};
ghost use Rattle.ent_request.specs.Note.{asks, fails, status_of};
ghost use Rattle.ent_request.specs.Noted.{noted};
ghost use Rattle.ent_request.specs.Questions.{AreNumbers, BeginsWith, at_numbers};
ghost use Rattle.ent_request.specs.Sources as sources;
ghost use Rattle.ent_request.specs.Sources.{asked_of};
ghost use Rattle.ent_trace.specs.proofs_only.Noted.{entering, in_rule, is_named, leaving, rule_in, settling};
ghost use Rattle.ent_trace.specs.proofs_only.Noted.{with_note};
ghost use Rattle.ent_trace.specs.proofs_only.Path.{keys_of};
ghost use Rattle.ent_request.specs.proofs_only.Reason.{what_of};
ghost use Rattle.ent_request.specs.declared.question.Question.TheVariants.{Of, Ref, Root};

use crate::asking::Asking;
use crate::causes::Causes;
use crate::path::Path;
use crate::paths::Paths;
use ent_policy::{Designator, DocKey, Kind, Reference, Version};
use ent_request::{Cause, Questions, Reads, Reason, Request};
use ent_values::{Items, Shared, Text};
use std::alloc::{AllocError, Global};
use std::marker::Model;
use std::mem;

/// The questions that an evaluation asked so far, or nothing where they aren't asked for: then none of them is kept. So
/// with what failed; but whether anything did is always kept. Beside them what was made last, which may serve again.
#[derive(Drop)]
pub struct Notes {
    is_asked: bool,
    asking: Asking,
    causes: Option<Causes>,
    failed: bool,
    paths: Paths,
}

impl Model for Notes {
    ghost use Rattle.std.specs.Prelude.{Some, None, if◌then◌else◌};
    ghost use Rattle.ent_trace.specs.proofs_only.Noted.{Notes};

    ghost Value = { Notes };

    ghost view = { λ n. record {
      questions = if n.is_asked then Some n.asking else None;
      causes = n.causes;
      failed = n.failed;
    } };
}

impl Notes {
    /// Of an evaluation that is asked for its answer alone.
    ///
    /// Its contract is an equation.
    pub fn unasked(alloc: Global) -> Notes
        ensures { result ≡ record { questions = None; causes = None; failed = false } }
    {
        Notes {
            is_asked: false,
            asking: Asking::new(alloc),
            causes: None,
            failed: false,
            paths: Paths::new(alloc),
        }
    }

    /// The keys that are looked up for the questions, each once, if they were asked for.
    ///
    /// Its contract leaves open: what it tells where questions weren't asked for, of which nothing is noted.
    pub fn reads(&self, alloc: Global, request: &Request) -> Result<Reads, AllocError>
        ensures { IfOk result (λ r. IfSome self.now.questions (λ questions.
            r ≡ noted [] (flat_map (sources.keys_of request.now) questions))) }
    {
        self.asking.keys(alloc, request)
    }

    /// The numbers of the questions among those of a caller, each once, if they were asked for.
    ///
    /// Its contract leaves open: which numbers new questions get; what it tells where they weren't asked for; what is
    /// left in the notes.
    pub fn numbers_among(
        &mut self,
        alloc: Global,
        questions: &mut Questions,
    ) -> Result<Items<u32>, AllocError>
        ensures asked { IfOk result (λ numbers.
            IfSome self.old.questions (λ asked. at_numbers questions.new numbers ≡ asked)) }
        ensures within { IfOk result (AreNumbers questions.new) }
        ensures begins { BeginsWith questions.new questions.old }
    {
        self.asking.numbers_among(alloc, questions)
    }

    /// Notes that the root is asked for, if it isn't there yet.
    ///
    /// Its contract is an equation but for memory.
    pub fn note_root(&mut self, alloc: Global) -> Result<(), AllocError>
        ensures { OnOk result (self.new ≡ with_note self.old (asks Root)) }
    {
        if self.is_asked {
            self.asking.note_root(alloc)?;
        }
        Ok(())
    }

    /// The same of which document a reference names.
    ///
    /// Its contract is an equation but for memory.
    pub fn note_reference(&mut self, alloc: Global, reference: &Reference) -> Result<(), AllocError>
        ensures { OnOk result (self.new ≡ with_note self.old (asks (Ref reference.now))) }
    {
        if self.is_asked {
            self.asking.note_reference(alloc, reference)?;
        }
        Ok(())
    }

    /// The same of the values of a designator.
    ///
    /// Its contract is an equation but for memory.
    pub fn note_values(&mut self, alloc: Global, designator: &Designator) -> Result<(), AllocError>
        ensures { OnOk result (self.new ≡ with_note self.old (asks (Of (asked_of designator.now)))) }
    {
        if self.is_asked {
            self.asking.note_values(alloc, designator)?;
        }
        Ok(())
    }

    /// Notes that something fails where the evaluation is.
    ///
    /// Its contract is an equation but for memory.
    pub fn fail(&mut self, alloc: Global, reason: Reason<'_>) -> Result<(), AllocError>
        ensures { OnOk result (self.new ≡ with_note self.old (fails (record {
          path = [];
          rule = None;
          status = status_of (what_of reason.entry);
          what = what_of reason.entry;
        }))) }
    {
        self.failed = true;
        match &mut self.causes {
            None => Ok(()),
            Some(causes) => causes.add(alloc, reason),
        }
    }

    /// Whether anything failed.
    ///
    /// Its contract is an equation.
    pub fn has_failed(&self) -> bool
        ensures { result ≡ self.now.failed }
    {
        self.failed
    }

    /// Whether something failed that isn't passed over, if what failed is asked for.
    ///
    /// Its contract is an equation.
    #[inline(always)]
    pub fn is_named(&self) -> bool
        ensures { result ≡ is_named self.now }
    {
        match &self.causes {
            None => false,
            Some(causes) => causes.told.is_named(),
        }
    }

    /// Behind a part of the evaluation: what failed in it is passed over unless it is Indeterminate. Whether something
    /// that failed before isn't is given: then nothing has to be done.
    ///
    /// Its contract is an equation.
    #[inline(always)]
    pub fn settle(&mut self, was_named: bool, is_indeterminate: bool)
        ensures { self.new ≡ settling was_named is_indeterminate self.old }
    {
        if is_indeterminate || was_named {
            return;
        }
        if let Some(causes) = &mut self.causes {
            causes.told.pass();
        }
    }

    /// What failed, each cause once, if that is asked for: the first that isn't passed over before the others.
    ///
    /// Its contract leaves open: what it tells where causes weren't asked for; what is left in the notes, which end
    /// with it.
    pub fn take_causes(&mut self, alloc: Global) -> Result<Items<Cause>, AllocError>
        ensures { IfOk result (λ causes. IfSome self.old.causes (λ k.
            causes ≡ named_first k.told.named k.told.causes)) }
    {
        match mem::replace(&mut self.causes, None) {
            None => Ok(Items::new(alloc)),
            Some(causes) => causes.told.into_items(alloc),
        }
    }

    /// Goes into a policy or a set.
    ///
    /// Its contract is an equation but for memory.
    #[inline(always)]
    pub fn enter(
        &mut self,
        alloc: Global,
        kind: Kind,
        id: &Text,
        version: &Version,
    ) -> Result<(), AllocError>
        ensures { OnOk result (self.new ≡ entering self.old (record {
          kind = kind;
          id = id.now;
          version = version.now;
        })) }
    {
        match &mut self.causes {
            None => Ok(()),
            Some(causes) => causes.enter(alloc, kind, id, version),
        }
    }

    /// And out of it.
    ///
    /// Its contract is an equation.
    #[inline(always)]
    pub fn leave(&mut self)
        ensures { self.new ≡ leaving self.old }
    {
        if let Some(causes) = &mut self.causes {
            causes.leave();
        }
    }

    /// Goes into a rule. What it was in before is given.
    ///
    /// Its contract is an equation but for memory.
    #[inline(always)]
    pub fn enter_rule(&mut self, alloc: Global, id: &Text) -> Result<Option<Text>, AllocError>
        ensures notes { OnOk result (self.new ≡ in_rule self.old (Some id.now)) }
        ensures outer { IfOk result (λ outer. outer ≡ rule_in self.old) }
    {
        match &mut self.causes {
            None => Ok(None),
            Some(causes) => Ok(mem::replace(&mut causes.rule, Some(id.copy(alloc)?))),
        }
    }

    /// And out of it.
    ///
    /// Its contract is an equation.
    #[inline(always)]
    pub fn leave_rule(&mut self, outer: Option<Text>)
        ensures { self.new ≡ in_rule self.old outer }
    {
        if let Some(causes) = &mut self.causes {
            causes.rule = outer;
        }
    }

    /// The keys of a path.
    ///
    /// Its contract is an equation but for memory.
    pub fn path(
        &mut self,
        alloc: Global,
        path: &Path<'_>,
    ) -> Result<Shared<Items<DocKey>>, AllocError>
        ensures value { IfOk result (λ keys. keys ≡ keys_of path.now) }
        ensures notes { self.new ≡ self.old }
    {
        self.paths.keys(alloc, path)
    }
}

/// The notes, kept from one evaluation to the next. What is noted never depends on them, so that they have no meaning
/// of their own.
#[derive(Drop)]
pub struct Notebook {
    notes: Notes,
}

impl Model for Notebook {
    ghost Value = { Unit {0} };

    ghost view = { λ _. tt };
}

impl Notebook {
    /// Nothing is kept.
    ///
    /// Its contract leaves open: all of it: a notebook keeps room, and nothing that a call tells.
    pub fn new(alloc: Global) -> Notebook {
        Notebook {
            notes: Notes::unasked(alloc),
        }
    }

    /// The notes of an evaluation before its first question, by whether its questions are asked for, and its causes.
    ///
    /// Its contract leaves open: what is left in the notebook, which keeps room and nothing that a call tells.
    pub fn open(&mut self, alloc: Global, is_asked: bool, is_told: bool) -> Notes
        ensures { result ≡ record {
          questions = if is_asked then Some [] else None;
          causes = if is_told then Some (record {
            path = [];
            rule = None;
            told = record { causes = []; named = None };
          }) else None;
          failed = false;
        } }
    {
        let mut notes = mem::replace(&mut self.notes, Notes::unasked(alloc));
        notes.is_asked = is_asked;
        notes.asking.begin(alloc);
        notes.failed = false;
        notes.causes = None;
        if is_told {
            notes.causes = Some(Causes::none(alloc));
        }
        notes
    }

    /// Keeps them behind it.
    ///
    /// Its contract leaves open: all of it: a notebook keeps room, and nothing that a call tells.
    pub fn close(&mut self, notes: Notes) {
        self.notes = notes;
    }
}
