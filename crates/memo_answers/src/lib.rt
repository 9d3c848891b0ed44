//! Cases by what came of the tests of documents.
#![tactic(auto)]

mod cases;
mod law;
mod marked;
mod signing;
mod tests;
mod told;
mod way;

pub use cases::ToldCases;
pub use law::{answers_are_told, cases_stay_told, cases_tell};
pub use signing::goes_on;
pub use tests::EntryTests;
pub use told::ToldAnswer;
pub use way::way_of;
