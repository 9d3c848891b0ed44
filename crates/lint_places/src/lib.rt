//! Where a fault of a document stands: the smallest part of it that has the fault.
#![tactic(auto)]

mod arguments;
mod clear;
mod faults;
mod faulty;
mod leaf;
mod led;
mod members;
mod outcome;
mod own;
mod part;
mod parts_told;
mod place;
mod reading;
mod scope;
mod surroundings;
mod suspects;
mod told_expressions;
mod told_lists;
mod weight;

pub use faults::{Faults, MOST_FAULTS, leads_to_one, places_of};
pub use own::Faulty;
pub use part::Part;
pub use place::{Place, place_of};
pub use scope::Scope;
