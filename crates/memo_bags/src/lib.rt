//! What questions find for the names of listed requests, by number, and trees of ways by what was found.
#![tactic(auto)]

mod bags;
mod finding;
mod findings;
mod names;
mod noting;
mod scene;
mod ways;

pub use bags::Bags;
pub use finding::{About, Finding};
pub use findings::Findings;
pub use names::{NameRow, NameRows};
pub use noting::findings_of;
pub use scene::Scene;
pub use ways::{make_way, seek};
