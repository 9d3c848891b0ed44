//! What is heard of a test.

use ent_request::Answer;
use ent_walk::{Targeted, Truth};

/// What a test comes to.
#[derive(Drop)]
pub enum Tested {
    /// A target.
    Target(Targeted),
    /// A condition.
    Condition(Truth),
    /// A rule with a condition that is True, with what it gives itself.
    Decides(Answer),
}
