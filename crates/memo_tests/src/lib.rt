//! What tests of documents come to, by the bags that their questions find.
#![tactic(auto)]

mod law;
mod outcome;
mod test;

pub use law::tests_rest_on_what_they_ask;
pub use outcome::TestOutcome;
pub use test::Test;
