//! The numbers of the outcomes of tests for a listed request.

ghost use Rattle.std.specs.Prelude.{◌≡◌, IfOk, IfSome, OnOk};
ghost use Rattle.std.specs.List.{AllByRecursion};
ghost use Rattle.ent_request.specs.Questions.{AreNumbers};
ghost use Rattle.memo_plan.specs.Plan as below;
ghost use Rattle.memo_plan.specs.Plan.{IsTyped, TaskTyped, task_came, task_goes_on};
ghost use Rattle.memo_plan.specs.Signed as signed;
ghost use Rattle.memo_plan.specs.declared.task.TestTask.{TestTask};
ghost use Rattle.memo_plan.specs.CameBy.{came_by};
ghost use Rattle.memo_plan.specs.Heard.{Came, Gist};
ghost use Rattle.memo_tests.specs.Tested.{came_of};
ghost use Rattle.memo_answers.specs.Told.{Signs, comes_of};
ghost use Rattle.memo_answers.specs.proofs_only.Signing.{CameThere, Follows, HasTest, IsSigning, TellsAt, request_of};
ghost use Rattle.memo_answers.specs.proofs_only.Signing.{scene_of};

use crate::tests::EntryTests;
use ent_request::{LookUps, Questions, Request};
use ent_values::Text;
use ent_walk::{Targeted, Truth, Walk};
use memo_bags::{Findings, Scene};
use memo_plan::{Entry, Outcomes, TestTask, Tested, WayStep, sign};
use memo_tests::TestOutcome;
use std::alloc::{AllocError, Global};

/// Gives the numbers of the outcomes of the tests of entries for a listed request, over what is held: of those that are
/// known, and of those that are learnt. The request is made where the first is learnt.
#[derive(Drop)]
pub(crate) struct Signing<'a, L> {
    pub(crate) alloc: Global,
    pub(crate) held: &'a L,
    pub(crate) entries: &'a [Entry],
    pub(crate) person: &'a Text,
    pub(crate) action: &'a Text,
    pub(crate) resource: &'a Text,
    pub(crate) request: Option<Request>,
    pub(crate) questions: Questions,
    pub(crate) findings: Findings,
    pub(crate) tests: EntryTests,
}

impl<L: LookUps> Outcomes for Signing<'_, L> {
    ghost scene = { scene_of L.looks };

    ghost has_test = { HasTest L.looks };

    ghost tells = { TellsAt };

    ghost follows = { λ after before. Follows L.looks before after };

    fn step(&mut self, place: usize, task: &TestTask) -> Result<WayStep, AllocError> {
        let number = self.number(place, task)?;
        self.step_at(place, number, task)
    }
}

impl<L: LookUps> Signing<'_, L> {
    // Puts the numbers of the outcomes of all tests in place of what stands in the way.
    pub(crate) fn sign(&mut self, way: &mut Vec<u32>) -> Result<(), AllocError>
        requires typed { AllByRecursion IsTyped self.old.entries.now }
        requires signing { IsSigning L.looks self.old }
        ensures signed { OnOk result (Signs self.old.entries.now (TellsAt self.new) way.new.items
            (comes_of self.old.entries.now (scene_of L.looks self.old))) }
        ensures follows { Follows L.looks self.old self.new }
    {
        let entries = self.entries;
        sign(self, entries, way)
    }

    // The number of the outcome of the test at a place, which is learnt if it isn't known.
    fn number(&mut self, place: usize, task: &TestTask) -> Result<usize, AllocError>
        requires typed { TaskTyped task.now }
        requires test { HasTest L.looks self.old place task.now }
        ensures comes { IfOk result (λ n.
            TellsAt self.new place n (task_came task.now (scene_of L.looks self.old))) }
        ensures follows { Follows L.looks self.old self.new }
    {
        match self.known(place)? {
            Some(number) => Ok(number),
            None => self.learnt(place, task),
        }
    }

    // The number of the outcome that is known of the test at a place, if one is.
    fn known(&mut self, place: usize) -> Result<Option<usize>, AllocError>
        requires { (t : TestTask) × HasTest L.looks self.old place t }
        ensures comes { (t : TestTask) → HasTest L.looks self.old place t
            → IfOk result (λ o. IfSome o (λ n. TellsAt self.new place n (task_came t (scene_of L.looks self.old)))) }
        ensures follows { Follows L.looks self.old self.new }
    {
        let scene = Scene {
            alloc: self.alloc,
            held: self.held,
            questions: &self.questions,
            person: self.person,
            action: self.action,
            resource: self.resource,
        };
        self.tests.list[place].known(&scene, &mut self.findings)
    }

    // The number of the outcome of the test at a place, which is evaluated for it.
    fn learnt(&mut self, place: usize, task: &TestTask) -> Result<usize, AllocError>
        requires typed { TaskTyped task.now }
        requires test { HasTest L.looks self.old place task.now }
        ensures comes { IfOk result (λ n.
            TellsAt self.new place n (task_came task.now (scene_of L.looks self.old))) }
        ensures follows { Follows L.looks self.old self.new }
    {
        let outcome = self.outcome(task)?;
        self.learn(place, outcome)
    }

    // Learns an outcome of the test at a place, and gives its number.
    fn learn(&mut self, place: usize, outcome: TestOutcome) -> Result<usize, AllocError>
        requires came { CameThere L.looks self.old place outcome }
        requires within { AreNumbers self.old.questions outcome.asked }
        ensures comes { IfOk result (λ n. TellsAt self.new place n (came_of self.old.questions outcome)) }
        ensures follows { Follows L.looks self.old self.new }
    {
        let scene = Scene {
            alloc: self.alloc,
            held: self.held,
            questions: &self.questions,
            person: self.person,
            action: self.action,
            resource: self.resource,
        };
        self.tests.learn(place, &scene, &mut self.findings, outcome)
    }

    // The outcome of a test.
    fn outcome(&mut self, task: &TestTask) -> Result<TestOutcome, AllocError>
        requires typed { TaskTyped task.now }
        requires signing { IsSigning L.looks self.old }
        ensures comes { IfOk result (λ o.
            task_came task.now (scene_of L.looks self.old) ≡ came_of self.new.questions o) }
        ensures within { IfOk result (λ o. AreNumbers self.new.questions o.asked) }
        ensures follows { Follows L.looks self.old self.new }
    {
        let request = self.requested()?;
        let outcome = self.evaluated(task, &request)?;
        self.request = Some(request);
        Ok(outcome)
    }

    // The request, which is taken out if it was made.
    fn requested(&mut self) -> Result<Request, AllocError>
        requires { IsSigning L.looks self.old }
        ensures request { IfOk result (λ r. r ≡ request_of self.new) }
        ensures follows { Follows L.looks self.old self.new }
    {
        match self.request.take() {
            Some(request) => Ok(request),
            None => Request::listed(
                self.alloc,
                self.person.as_str(),
                self.action.as_str(),
                self.resource.as_str(),
            ),
        }
    }

    // The outcome of a test that is evaluated alone.
    fn evaluated(&mut self, task: &TestTask, request: &Request) -> Result<TestOutcome, AllocError>
        requires typed { TaskTyped task.now }
        requires request { request.now ≡ request_of self.old }
        ensures comes { IfOk result (λ o.
            task_came task.now (scene_of L.looks self.old) ≡ came_of self.new.questions o) }
        ensures within { IfOk result (λ o. AreNumbers self.new.questions o.asked) }
        ensures follows { Follows L.looks self.old self.new }
    {
        let notes = self.tests.notebook.open(self.alloc, true, false);
        let mut walk = Walk::over(self.alloc, self.held, request, notes);
        let tested = task.tested(self.alloc, &mut walk)?;
        let mut notes = walk.notes;
        let failed = notes.has_failed();
        let asked = notes.numbers_among(self.alloc, &mut self.questions)?;
        self.tests.notebook.close(notes);
        Ok(TestOutcome {
            tested,
            asked,
            failed,
        })
    }

    // The step by an outcome that came of the test at a place. Beyond 2^32 outcomes it is refused, as for want of
    // memory.
    fn step_at(&self, place: usize, number: usize, task: &TestTask) -> Result<WayStep, AllocError>
        requires { (c : Came) × TellsAt self.now place number c }
        ensures { (c : Came) → TellsAt self.now place number c
            → IfOk result (signed.Tells (TellsAt self.now) place task.now c) }
    {
        match u32::try_from(number) {
            Err(_) => Err(AllocError),
            Ok(short) => Ok(WayStep {
                number: short,
                goes_on: goes_on(task, &self.tests.list[place].outcomes[number].tested),
            }),
        }
    }
}

/// Whether what stands below a test counts, by what it came to.
///
/// Its contract is an equation.
pub fn goes_on(task: &TestTask, tested: &Tested) -> bool
    ensures { (g : Gist) → result ≡ task_goes_on task.now (came_by tested.now g) }
{
    match task {
        TestTask::Target(_) => below_target(tested),
        TestTask::RuleTarget(_) => below_rule(tested),
        TestTask::Condition(_, _) => below_condition(tested),
        TestTask::Decision(_, _) => true,
    }
}

// The same below the target of an element.
fn below_target(tested: &Tested) -> bool
    ensures { (g : Gist) → result ≡ below.below_target (came_by tested.now g) }
{
    match tested {
        Tested::Target(Targeted::NoMatch) => false,
        Tested::Target(Targeted::Match) => true,
        Tested::Target(Targeted::Indeterminate(_)) => true,
        Tested::Condition(_) => true,
        Tested::Decides(_) => true,
    }
}

// Below the target of a rule.
fn below_rule(tested: &Tested) -> bool
    ensures { (g : Gist) → result ≡ below.below_rule (came_by tested.now g) }
{
    match tested {
        Tested::Target(Targeted::Match) => true,
        Tested::Target(Targeted::NoMatch) => false,
        Tested::Target(Targeted::Indeterminate(_)) => false,
        Tested::Condition(_) => true,
        Tested::Decides(_) => true,
    }
}

// Below a condition.
fn below_condition(tested: &Tested) -> bool
    ensures { (g : Gist) → result ≡ below.below_condition (came_by tested.now g) }
{
    match tested {
        Tested::Condition(Truth::True) => true,
        Tested::Condition(Truth::False) => false,
        Tested::Condition(Truth::Indeterminate(_)) => false,
        Tested::Target(_) => true,
        Tested::Decides(_) => true,
    }
}
