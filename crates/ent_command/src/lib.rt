//! Commands: what a line asks for, whether it only asks, and the edit that it makes.
#![tactic(auto)]

mod asking;
mod changes;
mod command;
mod keys;
mod making;
mod questions;
mod reading;
mod wanted;

pub use asking::{command_in, command_words, only_asks};
pub use command::{Command, EditCommand, QuestionCommand};
pub use keys::AskedRow;
pub use making::{NoEdit, read_edit};
pub use wanted::{WantedCells, decision_text, is_word_of};
