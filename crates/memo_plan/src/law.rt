//! The law of ways.

ghost use Rattle.memo_plan.specs.Plan.{EqualWaysAreHeardAlike};

/// Law: where one way tells what comes of the tests of two requests, over what is held for each, the same is heard of
/// their answers.
pub fn equal_ways_are_heard_alike()
    ensures { EqualWaysAreHeardAlike }
{}
