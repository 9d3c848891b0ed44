//! What documents come to that are stored together: references that find none of them, and where references lead.
#![tactic(auto)]

mod counts;
mod found;
mod held;
mod law;
mod links;
mod missing;
mod placed;
mod root;
mod sentences;
mod state;
mod together;

pub use held::Held;
pub use law::{endless_is_without_end, unfound_references_find_none};
pub use placed::PlacedReference;
pub use state::{StateFault, StoredState};
pub use together::{Together, ToldLinks};
