//! What an answer is joined of: the outcomes of tests, in the order of entries.

ghost use Rattle.std.specs.Prelude.{◌≡◌, [], ◌∷◌, IfOk, IfSome, List, OnOk, Option, Some};
ghost use Rattle.std.specs.Prelude.{if◌then◌else◌, slice_get};
ghost use Rattle.std.specs.List.{IsDistinct};
ghost use Rattle.ent_request.specs.Note.{asks};
ghost use Rattle.ent_request.specs.Questions.{AreNumbers, same_question};
ghost use Rattle.ent_request.specs.declared.question.Question.TheVariants.{Ref, Root};
ghost use Rattle.memo_plan.specs.CameBy.{came_by};
ghost use Rattle.memo_plan.specs.Heard.{Came, Gist, Heard, condition, decides, gist_of, gives, named, target};
ghost use Rattle.memo_plan.specs.Plan.{nothing_given, task_goes_on};
ghost use Rattle.memo_tests.specs.Tested.{came_of};
ghost use Rattle.memo_replay.specs.proofs_only.Heard.{HearsMore, HearsNothing, StaysThere, gist_by};
ghost use Rattle.memo_replay.specs.proofs_only.Stands.{Goes, IsNext, Stands, questions_of};

use crate::state::JoinState;
use ent_policy::{Reference, Tree};
use ent_request::{Answer, LookUps, Question, same_reference};
use ent_walk::{Targeted, Truth};
use memo_answers::goes_on;
use memo_bags::Scene;
use memo_plan::{Entry, Item, TestTask, Tested};
use memo_tests::{Test, TestOutcome};
use std::alloc::AllocError;

/// Why an answer isn't joined.
#[derive(Drop)]
pub(crate) enum NotJoined {
    Memory,
    /// A set has an algorithm that looks at all targets first, the question of a reference has no number yet, children
    /// stand too deep, or what stands there isn't what was looked for.
    Unfit,
}

impl From<AllocError> for NotJoined {
    ghost use Rattle.std.specs.Prelude.{◌≡◌};
    ghost use Rattle.memo_replay.specs.declared.over.NotJoined.TheVariants.{Memory};

    ghost from_gives = { λ _ e. e ≡ Memory };

    fn from(_: AllocError) -> NotJoined {
        NotJoined::Memory
    }
}

/// A listed request over what is held, the entries of a plan with what is known of their tests, and a way that tells
/// what came of them.
#[derive(Drop)]
pub(crate) struct Over<'a, L> {
    pub(crate) scene: &'a Scene<'a, L>,
    pub(crate) entries: &'a [Entry],
    pub(crate) tests: &'a [Test],
    pub(crate) way: &'a [u32],
}

/// An outcome, and how many entries are passed behind it.
#[derive(Clone, Copy)]
struct Next<'a> {
    outcome: &'a TestOutcome,
    passed: usize,
}

impl<'a, L: LookUps> Over<'a, L> {
    // Gives the outcome of the test that stands next, and goes behind it.
    pub(crate) fn pass(&self, state: &mut JoinState) -> Result<&'a TestOutcome, NotJoined>
        ensures next { IfOk result (λ o. (c : Came) (cs : List Came) → Stands self.now state.old (c ∷ cs)
            → (c ≡ came_of (questions_of self.now) o.now)
            × (AreNumbers (questions_of self.now) o.now.asked × Stands self.now state.new cs)) }
        ensures heard { HearsNothing state.old state.new }
    {
        match self.next(state) {
            None => Err(NotJoined::Unfit),
            Some(next) => {
                state.at = state.at.saturating_add(1);
                state.place = state.place.saturating_add(1).saturating_add(next.passed);
                Ok(next.outcome)
            }
        }
    }

    // The same, without going behind it.
    fn next(&self, state: &JoinState) -> Option<Next<'a>>
        ensures { IfSome result (λ n. (c : Came) (cs : List Came) → Stands self.now state.now (c ∷ cs)
            → IsNext self.now state.now.place state.now.at c cs n) }
    {
        let entry = self.entries.get(state.place)?;
        let number = *self.way.get(state.at)?;
        let outcome = self.tests.get(state.place)?.outcomes.get(number as usize)?;
        match &entry.item {
            Item::Test(task) => Some(Next {
                outcome,
                passed: passed(task, entry.skip, outcome),
            }),
            _ => None,
        }
    }

    // The outcome of the test that stands next, of which is heard.
    fn outcome(&self, state: &mut JoinState) -> Result<&'a TestOutcome, NotJoined>
        ensures { IfOk result (λ o. (c : Came) (cs : List Came) → Stands self.now state.old (c ∷ cs)
            → (c ≡ came_of (questions_of self.now) o.now)
            × Goes self.now state.old state.new (gist_by (questions_of self.now) o.now) cs) }
    {
        let outcome = self.pass(state)?;
        state.hear(outcome)?;
        Ok(outcome)
    }

    // What the target came to that stands next.
    pub(crate) fn target(&self, state: &mut JoinState) -> Result<Targeted, NotJoined>
        ensures { IfOk result (λ v. (t : Heard Targeted) (cs : List Came)
            → Stands self.now state.old (target t ∷ cs)
            → (v ≡ t.value) × Goes self.now state.old state.new t.gist cs) }
    {
        match &self.outcome(state)?.tested {
            Tested::Target(targeted) => Ok(*targeted),
            _ => Err(NotJoined::Unfit),
        }
    }

    // What the condition came to that stands next.
    pub(crate) fn condition(&self, state: &mut JoinState) -> Result<Truth, NotJoined>
        ensures { IfOk result (λ v. (t : Heard Truth) (cs : List Came)
            → Stands self.now state.old (condition t ∷ cs)
            → (v ≡ t.value) × Goes self.now state.old state.new t.gist cs) }
    {
        match &self.outcome(state)?.tested {
            Tested::Condition(truth) => Ok(*truth),
            _ => Err(NotJoined::Unfit),
        }
    }

    // What the rule came to that stands next.
    pub(crate) fn decided(&self, state: &mut JoinState) -> Result<Answer, NotJoined>
        ensures { IfOk result (λ a. (h : Heard Answer) (cs : List Came)
            → Stands self.now state.old (decides h ∷ cs)
            → (a ≡ h.value) × Goes self.now state.old state.new h.gist cs) }
    {
        match &self.outcome(state)?.tested {
            Tested::Decides(answer) => Ok(answer.copy(self.scene.alloc)?),
            _ => Err(NotJoined::Unfit),
        }
    }

    // Goes behind the entry that says that an element gives nothing itself.
    pub(crate) fn given(&self, state: &mut JoinState) -> Result<(), NotJoined>
        ensures given { OnOk result ((own : Answer → Heard Answer) (cs : List Came)
            → Stands self.now state.old (gives own ∷ cs)
            → (own ≡ nothing_given) × Stands self.now state.new cs) }
        ensures heard { HearsNothing state.old state.new }
    {
        match self.entries.get(state.place) {
            None => Err(NotJoined::Unfit),
            Some(entry) => match &entry.item {
                Item::Given => {
                    state.place = state.place.saturating_add(1);
                    Ok(())
                }
                _ => Err(NotJoined::Unfit),
            },
        }
    }

    // Gives the document of the reference that stands next, and goes behind it.
    pub(crate) fn document(&self, state: &mut JoinState) -> Result<&'a Option<Tree>, NotJoined>
        ensures named { IfOk result (λ d. (o : Option Tree) (cs : List Came)
            → Stands self.now state.old (named o ∷ cs) → (d.now ≡ o) × Stands self.now state.new cs) }
        ensures heard { HearsNothing state.old state.new }
    {
        match self.entries.get(state.place) {
            None => Err(NotJoined::Unfit),
            Some(entry) => match &entry.item {
                Item::Named(named) => {
                    state.place = state.place.saturating_add(1);
                    Ok(&named.get().copy)
                }
                _ => Err(NotJoined::Unfit),
            },
        }
    }

    // The same of this reference, whose question is heard.
    pub(crate) fn named(
        &self,
        state: &mut JoinState,
        reference: &Reference,
    ) -> Result<&'a Option<Tree>, NotJoined>
        ensures { IfOk result (λ d. (o : Option Tree) (cs : List Came)
            → Stands self.now state.old (named o ∷ cs)
            → (d.now ≡ o) × Goes self.now state.old state.new (gist_of (asks (Ref reference.now) ∷ [])) cs) }
    {
        let number = self.number_of(state, reference)?;
        state.ask(number)?;
        self.document(state)
    }

    // The number of the question of a reference, which stands next. It has none before an evaluation asked it.
    fn number_of(&self, state: &mut JoinState, reference: &Reference) -> Result<u32, NotJoined>
        ensures number { IfOk result (λ n.
            slice_get (questions_of self.now) n ≡ Some (Ref reference.now)) }
        ensures heard { HearsNothing state.old state.new }
        ensures stays { StaysThere state.old state.new }
    {
        if let Some(number) = self.likely(state, reference) {
            return Ok(number);
        }
        let question = Question::Ref(reference.copy(self.scene.alloc)?);
        let Some(number) = self.scene.questions.number_of(&question) else {
            return Err(NotJoined::Unfit);
        };
        keep_likely(&mut state.likely, state.place, number)?;
        Ok(number)
    }

    // The same, if it is the likely one.
    fn likely(&self, state: &JoinState, reference: &Reference) -> Option<u32>
        ensures { IfSome result (λ n. slice_get (questions_of self.now) n ≡ Some (Ref reference.now)) }
    {
        let number = *state.likely.get(state.place)?;
        match self.scene.questions.get(number) {
            Some(Question::Ref(there)) => {
                if same_reference(there, reference) {
                    Some(number)
                } else {
                    None
                }
            }
            _ => None,
        }
    }

    // Hears that the root is asked for.
    pub(crate) fn ask_root(&self, state: &mut JoinState) -> Result<(), NotJoined>
        ensures distinct { OnOk result (IsDistinct same_question (questions_of self.now)) }
        ensures heard { OnOk result
            (HearsMore (questions_of self.now) (gist_of (asks Root ∷ [])) state.old state.new) }
        ensures stays { StaysThere state.old state.new }
    {
        match self.scene.questions.number_of(&Question::Root) {
            None => Err(NotJoined::Unfit),
            Some(number) => {
                state.ask(number)?;
                Ok(())
            }
        }
    }
}

// How many entries are passed behind a test, of which so many stand below it.
fn passed(task: &TestTask, below: usize, outcome: &TestOutcome) -> usize
    ensures { (g : Gist) → result
        ≡ (if task_goes_on task.now (came_by outcome.now.tested g) then 0 else below) }
{
    if goes_on(task, &outcome.tested) {
        0
    } else {
        below
    }
}

// Keeps the number that the question of a place likely has. Places before it that have none get 0, which is compared
// as any other.
fn keep_likely(likely: &mut Vec<u32>, place: usize, number: u32) -> Result<(), AllocError> {
    if place >= likely.len() {
        likely.resize(place.saturating_add(1), 0)?;
    }
    if place < likely.len() {
        likely[place] = number;
    }
    Ok(())
}
