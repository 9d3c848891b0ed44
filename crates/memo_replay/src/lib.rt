//! Answers that are joined of what came of their tests.
#![tactic(auto)]

mod children;
mod joined;
mod over;
mod passing;
mod rules;
mod state;

pub use joined::{Joined, join};
pub use state::Pad;
