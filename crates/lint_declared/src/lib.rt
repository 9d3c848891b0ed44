//! Attributes that are declared in a file, and what of a document or of lines isn't declared so.
#![tactic(auto)]

mod always;
mod attribute;
mod claim;
mod closed;
mod compared;
mod designator;
mod fault;
mod known;
mod line_told;
mod lines;
mod listed;
mod near;
mod nearest;
mod reading;
mod said;
mod setting;
mod stray;
mod told;
mod walk;

pub use attribute::DeclaredAttribute;
pub use claim::{Claim, SetRow};
pub use designator::Undeclared;
pub use fault::{AttributeFault, AttributesFault};
pub use lines::{FaultyLine, LineFault, faulty_lines};
pub use listed::{Listed, ListedName};
pub use reading::{DECLARED_KEYS, read_attributes};
pub use walk::undeclared;
