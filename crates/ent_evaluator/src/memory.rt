//! What is remembered over evaluations of listed requests.

ghost use Rattle.std.specs.Prelude.{◌≡◌, List, IfNone, IfOk, IfSome, IsTrue, OnOk};
ghost use Rattle.ent_request.specs.Looks.{Looks};
ghost use Rattle.ent_eval.specs.Names.{request_by};
ghost use Rattle.ent_request.specs.Questions.{BeginsWith};
ghost use Rattle.ent_evaluator.specs.Held.{DifferAtMost, HaveSameValues};
ghost use Rattle.ent_evaluator.specs.Memory.{Gives, HasCase, Remembers, cases_in};
ghost use Rattle.ent_evaluator.specs.Tests.{HasPlan, IsSigned};
ghost use Rattle.ent_evaluator.specs.proofs_only.Remembered.{AreNamed, IsEvaluated, NoneFits};
ghost use Rattle.memo_bags.specs.proofs_only.Ready.{in_scene, request_of};
ghost use Rattle.memo_replay.specs.Joined.{IsJoined};
ghost use Rattle.ent_request.specs.declared.question.Question.{Question};
ghost use Rattle.ent_request.specs.declared.request.Request.{Request};

use crate::case::Case;
use crate::cases::Cases;
use crate::front::Front;
use crate::tests::PlanTests;
use ent_eval::{ListedEvaluation, Names};
use ent_request::{LookUps, Questions};
use ent_values::{Shared, Text};
use memo_bags::{Findings, Scene, findings_of};
use memo_replay::Joined;
use std::alloc::{AllocError, Global};

/// Beyond so many values in bags all is forgotten at the next edit of values, or the next question beside the table.
const MOST_VALUES: usize = 131_072;

/// Beyond so many names too.
const MOST_NAMES: usize = 131_072;

/// What is remembered over evaluations of listed requests: what questions found for names, until values of the name
/// change, and cases by that, until documents or the time change; and what came of tests, and cases by that, over all
/// edits. It is of use where many requests find the same.
#[derive(Drop)]
pub struct Memory {
    pub(crate) findings: Findings,
    pub(crate) cases: Cases,
    pub(crate) front: Front,
    pub(crate) tests: PlanTests,
}

impl Memory {
    /// Nothing is remembered, whatever is held. Nothing is allocated.
    ///
    /// Its contract leaves open: what stands in it: any that remembers nothing would do.
    pub fn new(alloc: Global) -> Memory
        ensures { (looks : Looks) (questions : List Question) → Remembers looks questions result }
    {
        Memory {
            findings: Findings::new(alloc),
            cases: Cases::new(alloc),
            front: Front::new(),
            tests: PlanTests::new(alloc),
        }
    }

    /// The values in rows of a name may be others from now on, and nothing else: what was found for it is forgotten.
    ///
    /// Its contract leaves open: how much it forgets beside what the name had: all would do.
    pub(crate) fn forget_name(&mut self, alloc: Global, name: &Text)
        ensures { (before after : Looks) (questions : List Question) → DifferAtMost name.now before after
            → Remembers before questions self.old → Remembers after questions self.new }
    {
        if self.is_much() {
            self.forget(alloc);
        } else {
            self.findings.forget_name(name);
        }
    }

    /// The root, documents and the time may be others from now on, and no values: cases by what was found are
    /// forgotten, and the plan of tests is compared before it is used again.
    ///
    /// Its contract leaves open: how much it forgets beside what rests on them: all would do.
    pub(crate) fn forget_documents(&mut self, alloc: Global)
        ensures { (before after : Looks) (questions : List Question) → HaveSameValues before after
            → Remembers before questions self.old → Remembers after questions self.new }
    {
        self.cases = Cases::new(alloc);
        self.tests.close();
    }

    /// Forgets all, where more is remembered than is to be kept.
    ///
    /// Its contract leaves open: how much it forgets, nothing included.
    pub(crate) fn forget_much(&mut self, alloc: Global)
        ensures { (looks : Looks) (questions : List Question) → Remembers looks questions self.old
            → Remembers looks questions self.new }
    {
        if self.is_much() {
            self.forget(alloc);
        }
    }

    // Whether more is remembered than is to be kept.
    fn is_much(&self) -> bool {
        self.findings.bags.values() > MOST_VALUES || self.findings.names() > MOST_NAMES
    }

    // Forgets all.
    fn forget(&mut self, alloc: Global)
        ensures { (looks : Looks) (questions : List Question) → Remembers looks questions self.new }
    {
        self.findings = Findings::new(alloc);
        self.cases = Cases::new(alloc);
        self.tests.forget(alloc);
    }

    // The answer and the questions of a case that a request fits, if there is one.
    pub(crate) fn recall<L: LookUps>(
        &mut self,
        scene: &Scene<'_, L>,
    ) -> Result<Option<ListedEvaluation>, AllocError>
        requires { in_scene L.looks scene.now Remembers self.old }
        ensures some { IfOk result (λ o. IfSome o (λ e. in_scene L.looks scene.now HasCase self.new
            (request_of scene.now) (Gives e))) }
        ensures none { IfOk result (λ o. IfNone o (in_scene L.looks scene.now NoneFits self.old.findings.bags
            (request_of scene.now) (cases_in self.old.cases))) }
        ensures remembers { in_scene L.looks scene.now Remembers self.new }
        ensures cases { cases_in self.new.cases ≡ cases_in self.old.cases }
        ensures named { OnOk result (in_scene L.looks scene.now AreNamed self.new.findings
            scene.now.person.now scene.now.action.now scene.now.resource.now) }
    {
        self.front.tried();
        self.findings.turn_to(scene)?;
        match self.cases.recall(scene, &mut self.findings)? {
            None => Ok(None),
            Some(evaluation) => {
                self.front.hit();
                self.cases.count_taken();
                Ok(Some(evaluation))
            }
        }
    }

    // Whether tests are to be tried for an evaluation over what is held.
    pub(crate) fn are_tests_tried<L: LookUps>(
        &mut self,
        alloc: Global,
        held: &L,
    ) -> Result<bool, AllocError>
        ensures remembers { (questions : List Question) → Remembers (L.looks held.now) questions self.old
            → Remembers (L.looks held.now) questions self.new }
        ensures planned { (questions : List Question) → Remembers (L.looks held.now) questions self.old
            → IfOk result (λ b. IsTrue b → HasPlan (L.looks held.now) self.new.tests) }
        ensures findings { self.new.findings ≡ self.old.findings }
    {
        self.tests.are_tried(alloc, held)
    }

    // Signs the tests for the request of three names.
    pub(crate) fn sign<L: LookUps>(
        &mut self,
        alloc: Global,
        held: &L,
        questions: &mut Questions,
        names: Names<'_>,
    ) -> Result<(), AllocError>
        requires remembers { Remembers (L.looks held.now) questions.old self.old }
        requires plan { HasPlan (L.looks held.now) self.old.tests }
        requires at { AreNamed (L.looks held.now) questions.old self.old.findings
            names.person.now names.action.now names.resource.now }
        ensures remembers { Remembers (L.looks held.now) questions.new self.new }
        ensures signed { OnOk result (IsSigned (L.looks held.now) questions.new
            (request_by names.entry) self.new.tests) }
        ensures questions { BeginsWith questions.new questions.old }
    {
        self.tests
            .sign(alloc, held, questions, &mut self.findings, names)
    }

    // The answer and the questions of the case that the way of tests tells, if there is one.
    pub(crate) fn told(&mut self) -> Result<Option<ListedEvaluation>, AllocError>
        ensures told { (looks : Looks) (questions : List Question) (request : Request)
            → Remembers looks questions self.old → IsSigned looks questions request self.old.tests
            → IfOk result (λ o. IfSome o (IsEvaluated looks questions request)) }
        ensures remembers { (looks : Looks) (questions : List Question) → Remembers looks questions self.old
            → Remembers looks questions self.new }
        ensures signed { (looks : Looks) (questions : List Question) (request : Request)
            → IsSigned looks questions request self.old.tests
            → IsSigned looks questions request self.new.tests }
    {
        match self.tests.told()? {
            None => Ok(None),
            Some(evaluation) => {
                self.tests.count_hit();
                Ok(Some(evaluation))
            }
        }
    }

    // The same that is joined of the outcomes, if it can be.
    pub(crate) fn joined<L: LookUps>(
        &mut self,
        scene: &Scene<'_, L>,
    ) -> Result<Option<ListedEvaluation>, AllocError>
        requires remembers { in_scene L.looks scene.now Remembers self.old }
        requires signed { in_scene L.looks scene.now IsSigned (request_of scene.now) self.old.tests }
        ensures evaluated { IfOk result (λ o. IfSome o
            (in_scene L.looks scene.now IsEvaluated (request_of scene.now))) }
        ensures remembers { in_scene L.looks scene.now Remembers self.new }
        ensures signed { in_scene L.looks scene.now IsSigned (request_of scene.now) self.new.tests }
    {
        match self.tests.joined(scene)? {
            None => Ok(None),
            Some(joined) => {
                self.tests.count_hit();
                Ok(Some(evaluated(scene.alloc, joined)?))
            }
        }
    }

    // Puts an evaluation as the case that the way of tests tells.
    pub(crate) fn put(
        &mut self,
        alloc: Global,
        evaluation: &ListedEvaluation,
    ) -> Result<(), AllocError>
        ensures { (looks : Looks) (questions : List Question) (request : Request)
            → Remembers looks questions self.old → IsSigned looks questions request self.old.tests
            → IsEvaluated looks questions request evaluation.now → Remembers looks questions self.new }
    {
        self.tests.put(alloc, evaluation)
    }

    // Remembers an evaluation as a case, where cases are of use.
    pub(crate) fn keep<L: LookUps>(
        &mut self,
        scene: &Scene<'_, L>,
        evaluation: &ListedEvaluation,
    ) -> Result<(), AllocError>
        requires remembers { in_scene L.looks scene.now Remembers self.old }
        requires evaluated { in_scene L.looks scene.now IsEvaluated (request_of scene.now) evaluation.now }
        ensures remembers { in_scene L.looks scene.now Remembers self.new }
        ensures tests { self.new.tests ≡ self.old.tests }
    {
        if !self.front.is_of_use() {
            return Ok(());
        }
        self.findings.turn_to(scene)?;
        let asked = evaluation.asked.get().as_slice();
        let found = findings_of(scene, &mut self.findings, asked)?;
        let case = Case {
            found,
            asked: evaluation.asked.copy()?,
            answer: evaluation.answer.copy()?,
            failed: evaluation.failed,
        };
        self.cases.put(scene.alloc, case)
    }
}

// An evaluation that has what was joined.
fn evaluated(alloc: Global, joined: Joined) -> Result<ListedEvaluation, AllocError>
    ensures { (looks : Looks) (questions : List Question) (request : Request)
        → IsJoined looks request questions joined → IfOk result (IsEvaluated looks questions request) }
{
    let answer = Shared::new(alloc, joined.answer)?;
    let asked = Shared::new(alloc, joined.asked)?;
    Ok(ListedEvaluation {
        answer,
        asked,
        failed: joined.failed,
    })
}
