//! The tests of documents in a list, and what comes of them.
#![tactic(auto)]

mod alone;
mod entries;
mod heard_law;
mod law;
mod task;
mod tested;
mod way;

pub use entries::plan_of;
pub use heard_law::equal_tests_are_heard_alike;
pub use law::equal_ways_are_heard_alike;
pub use task::{Entry, Item, NamedDocument, TestTask, Within};
pub use tested::Tested;
pub use way::{Outcomes, WayStep, sign};
