//! What came of tests, and cases by that.

ghost use Rattle.std.specs.Prelude.{◌≡◌, [], IfOk, IfSome, IsTrue, List, None, OnOk, false};
ghost use Rattle.ent_values.specs.Bags.{Contents};
ghost use Rattle.ent_eval.specs.Names.{request_by};
ghost use Rattle.ent_request.specs.Looks.{Looks};
ghost use Rattle.ent_request.specs.Questions.{BeginsWith};
ghost use Rattle.ent_request.specs.declared.question.Question.{Question};
ghost use Rattle.ent_request.specs.declared.request.Request.{Request};
ghost use Rattle.memo_bags.specs.proofs_only.Ready.{Begins, in_scene, request_of};
ghost use Rattle.memo_replay.specs.Joined.{IsJoined};
ghost use Rattle.ent_evaluator.specs.Tests.{AreTests, HasPlan, IsSigned};
ghost use Rattle.ent_evaluator.specs.proofs_only.Remembered.{AreNamed, HasTests, IsEvaluated};

use crate::plan::Plan;
use crate::worth::Worth;
use ent_eval::{ListedEvaluation, Names};
use ent_request::{LookUps, Questions};
use ent_values::Items;
use memo_answers::{ToldAnswer, ToldCases, way_of};
use memo_bags::{Findings, Scene};
use memo_replay::{Joined, Pad, join};
use std::alloc::{AllocError, Global};

/// So many places all trees of tests have, about.
const MOST_PLACES: usize = 262_144;

/// What came of the tests of a plan, and cases by that. It stays over edits: the plan says for what, and whether that
/// was compared with what is held now.
#[derive(Drop)]
pub(crate) struct PlanTests {
    pub(crate) plan: Option<Plan>,
    pub(crate) is_compared: bool,
    pub(crate) learnt: memo_answers::EntryTests,
    pub(crate) cases: ToldCases,
    pub(crate) way: Vec<u32>,
    pub(crate) pad: Pad,
    pub(crate) worth: Worth,
}

impl PlanTests {
    // Nothing is known of tests, for which nothing is allocated.
    pub(crate) fn new(alloc: Global) -> PlanTests
        ensures { result.plan ≡ None }
    {
        PlanTests {
            plan: None,
            is_compared: false,
            learnt: memo_answers::EntryTests::new(alloc),
            cases: ToldCases::new(alloc),
            way: Vec::new(alloc),
            pad: Pad::new(alloc),
            worth: Worth::new(),
        }
    }

    // Whether tests are to be tried for an evaluation over what is held: then there is a plan that rests on it.
    pub(crate) fn are_tried<L: LookUps>(
        &mut self,
        alloc: Global,
        held: &L,
    ) -> Result<bool, AllocError>
        ensures tests { (questions : List Question) (bags : List Contents)
            → AreTests (L.looks held.now) questions bags self.old
            → AreTests (L.looks held.now) questions bags self.new }
        ensures planned { (questions : List Question) (bags : List Contents)
            → AreTests (L.looks held.now) questions bags self.old
            → IfOk result (λ b. IsTrue b → HasPlan (L.looks held.now) self.new) }
    {
        if !self.worth.is_tried() {
            return Ok(false);
        }
        if self.are_ready(held) {
            return Ok(true);
        }
        if self.plan.is_some() {
            self.forget(alloc);
            self.worth.wait();
            return Ok(false);
        }
        self.begin(alloc, held)
    }

    // Whether there is a plan that rests on what is held, and what is known of its tests isn't too much.
    fn are_ready<L: LookUps>(&mut self, held: &L) -> bool
        ensures tests { (questions : List Question) (bags : List Contents)
            → AreTests (L.looks held.now) questions bags self.old
            → AreTests (L.looks held.now) questions bags self.new }
        ensures planned { (questions : List Question) (bags : List Contents)
            → AreTests (L.looks held.now) questions bags self.old
            → IsTrue result → HasPlan (L.looks held.now) self.new }
    {
        if self.learnt.places > MOST_PLACES {
            return false;
        }
        let stands = self.stand(held);
        self.is_compared = stands;
        stands
    }

    // Whether there is a plan that rests on what is held.
    fn stand<L: LookUps>(&self, held: &L) -> bool
        ensures { (questions : List Question) (bags : List Contents)
            → AreTests (L.looks held.now) questions bags self.now
            → IsTrue result → HasPlan (L.looks held.now) self.now }
    {
        match &self.plan {
            None => false,
            Some(plan) => {
                if self.is_compared {
                    return true;
                }
                plan.stands(held)
            }
        }
    }

    // Begins with a plan of what is held, if there is one.
    fn begin<L: LookUps>(&mut self, alloc: Global, held: &L) -> Result<bool, AllocError>
        ensures tests { (questions : List Question) (bags : List Contents)
            → AreTests (L.looks held.now) questions bags self.new }
        ensures planned { IfOk result (λ b. IsTrue b → HasPlan (L.looks held.now) self.new) }
    {
        self.forget(alloc);
        match Plan::of(alloc, held)? {
            None => {
                self.worth.rest();
                Ok(false)
            }
            Some(plan) => {
                let learnt = memo_answers::EntryTests::of(alloc, plan.entries.as_slice())?;
                self.learnt = learnt;
                self.is_compared = true;
                self.plan = Some(plan);
                Ok(true)
            }
        }
    }

    // Signs the tests of the plan for the request of three names.
    pub(crate) fn sign<L: LookUps>(
        &mut self,
        alloc: Global,
        held: &L,
        questions: &mut Questions,
        findings: &mut Findings,
        names: Names<'_>,
    ) -> Result<(), AllocError>
        requires plan { HasPlan (L.looks held.now) self.old }
        requires tests { AreTests (L.looks held.now) questions.old findings.old.bags self.old }
        requires named { AreNamed (L.looks held.now) questions.old findings.old
            names.person.now names.action.now names.resource.now }
        ensures signed { OnOk result (IsSigned (L.looks held.now) questions.new
            (request_by names.entry) self.new) }
        ensures tests { AreTests (L.looks held.now) questions.new findings.new.bags self.new }
        ensures named { AreNamed (L.looks held.now) questions.new findings.new
            names.entry.person.now names.entry.action.now names.entry.resource.now }
        ensures questions { BeginsWith questions.new questions.old }
        ensures bags { Begins findings.new.bags findings.old.bags }
    {
        self.worth.begin(self.learnt.places);
        match &self.plan {
            None => unreachable!(),
            Some(plan) => way_of(
                alloc,
                held,
                plan.entries.as_slice(),
                questions,
                findings,
                &mut self.learnt,
                names.person,
                names.action,
                names.resource,
                &mut self.way,
            ),
        }
    }

    // The answer and the questions of the case that the way tells, if there is one.
    pub(crate) fn told(&self) -> Result<Option<ListedEvaluation>, AllocError>
        ensures { (looks : Looks) (questions : List Question) (bags : List Contents) (request : Request)
            → AreTests looks questions bags self.now → IsSigned looks questions request self.now
            → IfOk result (λ o. IfSome o (IsEvaluated looks questions request)) }
    {
        match self.cases.find(self.way.as_slice()) {
            None => Ok(None),
            Some(case) => Ok(Some(ListedEvaluation {
                answer: case.answer.copy()?,
                asked: case.asked.copy()?,
                failed: case.failed,
            })),
        }
    }

    // The answer that is joined of the outcomes of tests, if it can be.
    pub(crate) fn joined<L: LookUps>(
        &mut self,
        scene: &Scene<'_, L>,
    ) -> Result<Option<Joined>, AllocError>
        requires tests { in_scene L.looks scene.now HasTests self.old }
        requires signed { in_scene L.looks scene.now IsSigned (request_of scene.now) self.old }
        ensures joined { IfOk result (λ o. IfSome o
            (IsJoined (L.looks scene.now.held.now) (request_of scene.now) scene.now.questions.now)) }
        ensures same { self.new ≡ self.old }
    {
        match &self.plan {
            None => Ok(None),
            Some(plan) => join(
                scene,
                &plan.root,
                plan.entries.as_slice(),
                self.learnt.list.as_slice(),
                self.way.as_slice(),
                &mut self.pad,
            ),
        }
    }

    // A try found a case, or its answer was joined.
    pub(crate) fn count_hit(&mut self)
        ensures { self.new ≡ record self.old { worth = self.new.worth } }
    {
        self.worth.hit(self.learnt.places);
    }

    // Puts an evaluation as the case that the way tells.
    pub(crate) fn put(
        &mut self,
        alloc: Global,
        evaluation: &ListedEvaluation,
    ) -> Result<(), AllocError>
        ensures { (looks : Looks) (questions : List Question) (bags : List Contents) (request : Request)
            → AreTests looks questions bags self.old → IsSigned looks questions request self.old
            → IsEvaluated looks questions request evaluation.now → AreTests looks questions bags self.new }
    {
        self.cases.put(
            alloc,
            ToldAnswer {
                way: copied(alloc, self.way.as_slice())?,
                answer: evaluation.answer.copy()?,
                asked: evaluation.asked.copy()?,
                failed: evaluation.failed,
            },
        )
    }

    // What is held may be another from now on.
    pub(crate) fn close(&mut self)
        ensures { self.new ≡ record self.old { is_compared = false } }
    {
        self.is_compared = false;
    }

    // Forgets all of them. The way and the pad stay, which have no meaning.
    pub(crate) fn forget(&mut self, alloc: Global)
        ensures plan { self.new.plan ≡ None }
        ensures cases { self.new.cases ≡ [] }
    {
        self.plan = None;
        self.learnt = memo_answers::EntryTests::new(alloc);
        self.cases = ToldCases::new(alloc);
    }
}

// An equal way.
fn copied(alloc: Global, way: &[u32]) -> Result<Items<u32>, AllocError>
    ensures { IfOk result (λ copy. copy ≡ way.now) }
{
    let mut numbers = Vec::with_capacity(alloc, way.len())?;
    numbers.extend_from_slice(way)?;
    Ok(Items::from_vec(numbers))
}
