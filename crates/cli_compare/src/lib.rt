//! `review compare`: what differs between the tables of two states; and which rules of a state cover its table.
#![tactic(auto)]

mod covering;
mod differing;
mod status;
mod tabling;

pub use differing::{Ending, compare_from};
pub use tabling::{compare_states, cover_state};
