//! The program as a library: what `review serve`, `review check FILE..`, `review lines` and `review test FILE..` do,
//! and the exit statuses that they end with.
#![tactic(auto)]

mod acting;

pub use acting::run;
