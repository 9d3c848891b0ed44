//! To which documents the root leads.
#![tactic(auto)]

mod place;
mod reached;
mod search;
mod walk;

pub use place::DocPlace;
pub use reached::{Reached, reached_places};
