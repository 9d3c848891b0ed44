//! What is wrong with a document, and where, in words for its author.
#![tactic(auto)]

mod absent;
mod asked;
mod behind;
mod definitions;
mod every;
mod form;
mod known;
mod line;
mod merge;
mod names;
mod near;
mod never;
mod not_json;
mod places;
mod position;
mod refused;
mod scan;
mod sentence;
mod sizes;
mod takes;
mod twice;
mod types;
mod typing;
mod variables;
mod warned;
mod words;

pub use every::{ExplainedFaults, explain_all};
pub use line::one_line;
pub use merge::is_merge_marker;
pub use places::Places;
pub use position::{Position, line_and_column};
pub use refused::{explain, explain_text, placed};
pub use warned::warnings;
pub use words::shortened;
