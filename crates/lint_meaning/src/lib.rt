//! What of a document may not be meant, though it can be used: what its parts never come to, whatever is asked.
#![tactic(auto)]

mod bounds;
mod copies;
mod effects;
mod fixed;
mod inside;
mod names;
mod places;
mod targets;
mod walk;
mod warning;

pub use bounds::no_value_meets_both;
pub use walk::warnings;
pub use warning::{Meaning, Warning};
