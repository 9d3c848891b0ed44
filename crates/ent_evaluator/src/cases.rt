//! The cases that are remembered.

ghost use Rattle.std.specs.Prelude.{◌≡◌, ◌<◌, ◌≤◌, IfNone, IfOk, IfSome, List, OnOk, Some};
ghost use Rattle.std.specs.Prelude.{length};
ghost use Rattle.std.specs.Bool.{OnFalse};
ghost use Rattle.ent_values.specs.Bags.{Contents};
ghost use Rattle.ent_request.specs.Looks.{Looks};
ghost use Rattle.ent_evaluator.specs.Memory.{AreShelves, Gives, HasCaseIn, cases_in, most_cases};
ghost use Rattle.memo_bags.specs.proofs_only.Ready.{AreReady, KeepsReady};
ghost use Rattle.ent_evaluator.specs.proofs_only.Remembered.{HasPut, KeepsShelves, NoneFits};
ghost use Rattle.memo_bags.specs.proofs_only.Ready.{in_scene, request_of};
ghost use Rattle.ent_request.specs.declared.question.Question.{Question};

use crate::case::Case;
use crate::shelf::Shelf;
use ent_eval::ListedEvaluation;
use ent_request::LookUps;
use memo_bags::{Findings, Scene};
use std::alloc::{AllocError, Global};
use std::mem;

/// So many cases stand on a shelf at most.
const MOST_CASES: usize = 4096;

/// So many, where for long none was taken.
const FEW_CASES: usize = 64;

/// So many cases may be put in one after another, of which none was taken, before it is for long.
const MOST_UNTAKEN: usize = 256;

/// A shelf is full where its tree has so many places.
const MOST_PLACES: usize = 65_536;

/// The cases, on two shelves: where the latest one is full, it becomes the older one, and what stood there is
/// forgotten. Where none is taken there are few, which take little memory.
#[derive(Drop)]
pub(crate) struct Cases {
    pub(crate) older: Shelf,
    pub(crate) latest: Shelf,
    pub(crate) untaken: usize,
}

impl Cases {
    // No cases, for which nothing is allocated.
    pub(crate) fn new(alloc: Global) -> Cases
        ensures { (looks : Looks) (questions : List Question) (bags : List Contents)
            → AreShelves looks questions bags result }
    {
        Cases {
            older: Shelf::new(alloc),
            latest: Shelf::new(alloc),
            untaken: 0,
        }
    }

    // The answer and the questions of a case that a request fits, if there is one.
    pub(crate) fn recall<L: LookUps>(
        &self,
        scene: &Scene<'_, L>,
        findings: &mut Findings,
    ) -> Result<Option<ListedEvaluation>, AllocError>
        requires ready { AreReady (L.looks scene.now.held.now) scene.now findings.old }
        requires shelves { in_scene L.looks scene.now AreShelves findings.old.bags self.now }
        ensures some { IfOk result (λ o. IfSome o (λ e. in_scene L.looks scene.now HasCaseIn findings.new.bags
            (request_of scene.now) (cases_in self.now) (Gives e))) }
        ensures none { IfOk result (λ o. IfNone o (in_scene L.looks scene.now NoneFits findings.old.bags
            (request_of scene.now) (cases_in self.now))) }
        ensures keeps { KeepsReady (L.looks scene.now.held.now) scene.now findings.old findings.new }
    {
        match self.latest.recall(scene, findings)? {
            None => self.older.recall(scene, findings),
            Some(evaluation) => Ok(Some(evaluation)),
        }
    }

    // A case was taken.
    pub(crate) fn count_taken(&mut self)
        ensures older { self.new.older ≡ self.old.older }
        ensures latest { self.new.latest ≡ self.old.latest }
    {
        self.untaken = 0;
    }

    // Puts a case in.
    pub(crate) fn put(&mut self, alloc: Global, case: Case) -> Result<(), AllocError>
        ensures shelves { KeepsShelves case self.old self.new }
        ensures there { OnOk result (HasPut case self.new) }
    {
        self.untaken = self.untaken.saturating_add(1);
        if self.is_full() {
            return self.begin(alloc, case);
        }
        match self.latest.put(alloc, case)? {
            None => Ok(()),
            Some(case) => self.begin(alloc, case),
        }
    }

    // Begins a shelf with a case.
    fn begin(&mut self, alloc: Global, case: Case) -> Result<(), AllocError>
        ensures shelves { KeepsShelves case self.old self.new }
        ensures there { OnOk result (HasPut case self.new) }
    {
        let mut shelf = Shelf::new(alloc);
        match shelf.put(alloc, case)? {
            None => {
                self.exchange(shelf);
                Ok(())
            }
            Some(_) => unreachable!(),
        }
    }

    // Puts a new shelf in the place of the latest one, which becomes the older one.
    fn exchange(&mut self, shelf: Shelf)
        ensures older { self.new.older ≡ self.old.latest }
        ensures latest { self.new.latest ≡ shelf }
    {
        self.older = mem::replace(&mut self.latest, shelf);
    }

    // Whether no case more may stand on the latest shelf.
    fn is_full(&self) -> bool
        ensures { OnFalse result (length self.now.latest.cases.items < most_cases) }
    {
        self.latest.cases.len() >= self.most() || self.latest.tree.len() >= MOST_PLACES
    }

    // How many cases may stand on a shelf now.
    fn most(&self) -> usize
        ensures { result ≤ most_cases }
    {
        if self.untaken > MOST_UNTAKEN {
            FEW_CASES
        } else {
            MOST_CASES
        }
    }
}
