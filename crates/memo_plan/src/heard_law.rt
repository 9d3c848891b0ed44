//! The law of tests.

ghost use Rattle.memo_plan.specs.Heard.{EqualTestsAreHeardAlike};

/// Law: where the root is the same and each reference that is followed names the same document, and the same is heard
/// of each target, of each condition under a match, of what its rule decides, and of what each element gives itself,
/// the same is heard of the answer: its value, its questions, each once, and whether a part failed. What stands below
/// a target that doesn't match doesn't count.
pub fn equal_tests_are_heard_alike()
    ensures { EqualTestsAreHeardAlike }
{}
