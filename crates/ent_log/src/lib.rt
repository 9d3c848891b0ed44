//! A log of what edits of a table changed: of each key that an edit gave another answer, the answer before it.
#![tactic(auto)]

mod change;
mod edits;
mod entry;
mod key;
mod law;
mod log;
mod present;
mod since;

pub use change::LoggedChange;
pub use entry::{Logged, OldAnswer};
pub use law::{difference_is_of_maps, differences_are_unique, maps_stay};
pub use log::Log;
pub use present::Present;
