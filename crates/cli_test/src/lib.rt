//! `review test`: tests of policies, what becomes of them, and which rules they cover.
#![tactic(auto)]

mod covering;
mod junit;
mod listing;
mod sharing;
mod status;
mod tally;
mod testing;
mod trying;
mod untested;

pub use junit::send_junit;
pub use listing::list_tests;
pub use tally::{Tally, send_tally};
pub use testing::{TestPlan, test_from};
pub use trying::run_tests;
