//! What became of tests, as JUnit XML.
#![tactic(auto)]

mod escaping;
mod result;
mod writing;

pub use result::{Suite, TestCase, errors, failed};
pub use writing::junit_of;
