//! A shelf of cases.

ghost use Rattle.std.specs.Prelude.{◌≡◌, ◌<◌, [], IfNone, IfOk, IfSome, List, None, OnErr, Some};
ghost use Rattle.std.specs.Prelude.{length, slice_get};
ghost use Rattle.ent_evaluator.specs.Memory.{Gives, HasCaseIn, IsShelf};
ghost use Rattle.ent_evaluator.specs.Memory.{IsIndex};
ghost use Rattle.memo_bags.specs.proofs_only.Led.{AreAbout};
ghost use Rattle.ent_evaluator.specs.proofs_only.Remembered.{IsPut};
ghost use Rattle.memo_bags.specs.proofs_only.Ready.{AreReady, KeepsReady, in_scene, request_of};
ghost use Rattle.ent_evaluator.specs.proofs_only.Remembered.{NoneFits};
ghost use Rattle.ent_evaluator.specs.declared.case.Case.{Case};
ghost use Rattle.ent_request.specs.declared.question.Question.{Question};

use crate::case::Case;
use ent_eval::ListedEvaluation;
use ent_request::LookUps;
use memo_bags::{About, Findings, Scene, make_way, seek};
use memo_trie::Trie;
use std::alloc::{AllocError, Global};

/// Cases, each of which stands at the end of the way of what was found for it.
#[derive(Drop)]
pub(crate) struct Shelf {
    pub(crate) cases: Vec<Case>,
    pub(crate) tree: Trie<About, usize>,
}

impl Shelf {
    // No cases, for which nothing is allocated.
    pub(crate) fn new(alloc: Global) -> Shelf
        ensures cases { result.cases.items ≡ [] }
        ensures tree { result.tree.nodes.items ≡ [] }
    {
        Shelf {
            cases: Vec::new(alloc),
            tree: Trie::new(alloc),
        }
    }

    // The answer and the questions of the case that a request fits, if there is one.
    pub(crate) fn recall<L: LookUps>(
        &self,
        scene: &Scene<'_, L>,
        findings: &mut Findings,
    ) -> Result<Option<ListedEvaluation>, AllocError>
        requires ready { AreReady (L.looks scene.now.held.now) scene.now findings.old }
        requires shelf { in_scene L.looks scene.now IsShelf findings.old.bags self.now }
        ensures some { IfOk result (λ o. IfSome o (λ e. in_scene L.looks scene.now HasCaseIn findings.new.bags
            (request_of scene.now) self.now.cases.items (Gives e))) }
        ensures none { IfOk result (λ o. IfNone o (in_scene L.looks scene.now NoneFits findings.old.bags
            (request_of scene.now) self.now.cases.items)) }
        ensures keeps { KeepsReady (L.looks scene.now.held.now) scene.now findings.old findings.new }
    {
        match seek(scene, findings, &self.tree)? {
            None => Ok(None),
            Some(place) => Ok(Some(self.given(place)?)),
        }
    }

    // The answer and the questions of the case at a place.
    fn given(&self, place: usize) -> Result<ListedEvaluation, AllocError>
        requires { place < length self.now.cases.items }
        ensures { IfOk result (λ e. (c : Case) → slice_get self.now.cases.items place ≡ Some c → Gives e c) }
    {
        let case = &self.cases[place];
        Ok(ListedEvaluation {
            answer: case.answer.copy()?,
            asked: case.asked.copy()?,
            failed: case.failed,
        })
    }

    // Puts a case in, or gives it back where something else stands on its way.
    pub(crate) fn put(&mut self, alloc: Global, case: Case) -> Result<Option<Case>, AllocError>
        ensures ok { IfOk result (IsPut case self.old.cases.items self.new.cases.items) }
        ensures err { OnErr result (self.new.cases.items ≡ self.old.cases.items) }
        ensures free { self.old.tree.nodes.items ≡ [] → IfOk result (λ o. o ≡ None) }
        ensures index { (questions : List Question) → AreAbout questions case.found → IsIndex questions self.old
            → IsIndex questions self.new }
    {
        match make_way(alloc, &mut self.tree, case.found.as_slice())? {
            None => Ok(Some(case)),
            Some(place) => {
                let number = self.cases.len();
                self.cases.push(case)?;
                self.tree.end(place, number);
                Ok(None)
            }
        }
    }
}
