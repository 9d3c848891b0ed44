//! What is heard of a test.

ghost use Rattle.std.specs.Prelude.{◌≡◌, IsTrue};
ghost use Rattle.memo_plan.specs.declared.tested.Tested.TheVariants.{Condition, Decides, Target};

use ent_request::Answer;
use ent_values::Items;
use ent_walk::{Targeted, Truth};
use memo_plan::Tested;

/// What a test comes to, the numbers of the questions that are asked for it, each once, and whether something in it
/// failed by itself.
#[derive(Drop)]
pub struct TestOutcome {
    pub tested: Tested,
    pub asked: Items<u32>,
    pub failed: bool,
}

impl TestOutcome {
    // Whether two are found to be equal.
    pub(crate) fn is(&self, other: &TestOutcome) -> bool
        ensures { IsTrue result → self.now ≡ other.now }
    {
        self.failed == other.failed
            && same_numbers(self.asked.as_slice(), other.asked.as_slice())
            && same_tested(&self.tested, &other.tested)
    }
}

// Whether two tests are found to have come to the same.
fn same_tested(first: &Tested, second: &Tested) -> bool
    ensures { IsTrue result → first.now ≡ second.now }
{
    match first {
        Tested::Target(one) => is_target(*one, second),
        Tested::Condition(one) => is_condition(*one, second),
        Tested::Decides(one) => is_decided(one, second),
    }
}

// Whether a target came to this.
fn is_target(one: Targeted, other: &Tested) -> bool
    ensures { IsTrue result → Target one ≡ other.now }
{
    match other {
        Tested::Target(other) => one == *other,
        _ => false,
    }
}

// Whether a condition did.
fn is_condition(one: Truth, other: &Tested) -> bool
    ensures { IsTrue result → Condition one ≡ other.now }
{
    match other {
        Tested::Condition(other) => one == *other,
        _ => false,
    }
}

// Whether what a rule gives itself did.
fn is_decided(one: &Answer, other: &Tested) -> bool
    ensures { IsTrue result → Decides one.now ≡ other.now }
{
    match other {
        Tested::Decides(other) => one == other,
        _ => false,
    }
}

// Whether two lists of numbers are equal.
fn same_numbers(first: &[u32], second: &[u32]) -> bool
    ensures { IsTrue result → first.now ≡ second.now }
{
    first == second
}
