//! The way of the numbers of outcomes.

ghost use Rattle.std.specs.Prelude.{◌≡◌, ℕ, IfOk, OnOk, if◌then◌else◌};
ghost use Rattle.memo_plan.specs.Heard.{Came};
ghost use Rattle.memo_plan.specs.Plan.{Scene, TaskTyped, constant, entry_came, goes_on, is_test, skip_of, task_came};
ghost use Rattle.memo_plan.specs.Run.{CameBy, passed, run};
ghost use Rattle.memo_plan.specs.Signed.{AreTested, Grows, IsTested, NotesOne, Tells};
ghost use Rattle.memo_plan.specs.declared.task.TestTask.{TestTask};

use crate::task::{Entry, Item, TestTask};
use std::alloc::AllocError;

/// The number of a test's outcome, and whether what stands below the test counts.
#[derive(Clone, Copy)]
pub struct WayStep {
    pub number: u32,
    pub goes_on: bool,
}

impl WayStep {
    // How many entries behind a test are passed, where so many stand below it.
    fn passed(self, below: usize) -> usize
        ensures { result ≡ (if self.goes_on then 0 else below) }
    {
        if self.goes_on { 0 } else { below }
    }
}

/// Gives the numbers of the outcomes of tests for one request, over what is held.
pub trait Outcomes {
    /// What is held, and the request.
    ghost scene: { Self → Scene };

    /// What is known at a place is known of this test.
    ghost has_test: { Self → ℕ → TestTask → Type 0 };

    /// A number of the test at a place tells this.
    ghost tells: { Self → ℕ → ℕ → Came → Type 0 };

    /// Outcomes followed from what they were before, and will as they grow.
    ghost follows: { Self → Self → Type 0 };

    /// The number of the outcome of the test at a place. Numbers go on telling what they told, whatever comes.
    fn step(&mut self, place: usize, task: &TestTask) -> Result<WayStep, AllocError>
        requires typed { TaskTyped task.now }
        requires test { has_test self.old place task.now }
        ensures tells { IfOk result (Tells (tells self.new) place task.now (task_came task.now (scene self.old))) }
        ensures grows { Grows scene has_test tells follows self.old self.new };
}

/// Puts the numbers of the outcomes of tests, from the first on, in place of what stands in the way.
///
/// # Errors
///
/// `AllocError` if memory runs out.
///
/// Its contract leaves open: which numbers outcomes have that weren't there before, and what else is learnt.
pub fn sign<O: Outcomes>(
    outcomes: &mut O,
    entries: &[Entry],
    way: &mut Vec<u32>,
) -> Result<(), AllocError>
    requires { AreTested (O.has_test outcomes.old) entries.now }
    ensures came { OnOk result (CameBy is_test constant (O.tells outcomes.new) goes_on skip_of 0 0 entries.now
        way.new.items (run entry_came goes_on skip_of 0 entries.now (O.scene outcomes.old))) }
    ensures grows { Grows O.scene O.has_test O.tells O.follows outcomes.old outcomes.new }
{
    way.clear();
    let mut place = 0;
    while place < entries.len() {
        let passed = sign_one(outcomes, place, &entries[place], way)?;
        place = place.saturating_add(1).saturating_add(passed);
    }
    Ok(())
}

// Puts the number of the outcome of an entry's test last, if it has one, and gives how many are passed behind it.
fn sign_one<O: Outcomes>(
    outcomes: &mut O,
    place: usize,
    entry: &Entry,
    way: &mut Vec<u32>,
) -> Result<usize, AllocError>
    requires { IsTested (O.has_test outcomes.old) place entry.now.item }
    ensures notes { OnOk result (NotesOne constant (O.tells outcomes.new) (is_test entry.now) place entry.now
        (entry_came entry.now (O.scene outcomes.old)) way.old.items way.new.items) }
    ensures passed { IfOk result (λ k. k
        ≡ passed goes_on skip_of entry.now (entry_came entry.now (O.scene outcomes.old))) }
    ensures grows { Grows O.scene O.has_test O.tells O.follows outcomes.old outcomes.new }
{
    match &entry.item {
        Item::Named(_) => Ok(0),
        Item::Given => Ok(0),
        Item::Test(task) => {
            let step = outcomes.step(place, task)?;
            way.push(step.number)?;
            Ok(step.passed(entry.skip))
        }
    }
}
