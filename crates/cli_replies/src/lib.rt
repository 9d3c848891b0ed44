//! The lines of files, and replies beside those that the files expect.
#![tactic(auto)]

mod comparing;
mod lines;

pub use comparing::{compare, is_wanting, split_reply, tell};
pub use lines::{Lines, behind, push_asked, read_state};
