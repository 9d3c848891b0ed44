//! Dumps: the lines that make a state of a review anew, as the reply that tells them and as lines.
#![tactic(auto)]

mod commands;
mod dump;
mod edits;
mod fault;
mod input;
mod lines;
mod output;
mod told;

pub use dump::dump_text;
pub use fault::LinesFault;
pub use lines::{dump_lines, dump_lines_within};
