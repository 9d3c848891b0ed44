//! What an evaluation notes: which questions it asks, and what fails in it by itself, each once, with the policies and
//! the rule in which that stands.
#![tactic(auto)]

mod asking;
mod causes;
mod distinct;
mod marked;
mod notes;
mod path;
mod paths;
mod trail;

pub use marked::MarkedNumbers;
pub use notes::{Notebook, Notes};
pub use path::Path;
