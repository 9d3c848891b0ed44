//! The command line: its words, what they ask for, where its files are read, and what is said and which exit status is
//! given of faults and of words that can't be used.
#![tactic(auto)]

mod asked_check;
mod asked_coverage;
mod asked_states;
mod asked_tests;
mod misused;
mod options;
mod reading;
mod sentences;
mod sources;
mod status;
mod words;

pub use asked_check::AskedCheck;
pub use asked_coverage::AskedCoverage;
pub use asked_states::{AskedStates, Failing, Form};
pub use asked_tests::AskedTests;
pub use misused::{pass_check, pass_states, pass_tests};
pub use options::{Modules, Task, task_of};
pub use reading::{read_fault, read_source, tell_cause, tell_unread};
pub use sentences::fault_sentence;
pub use sources::{Shown, Source};
pub use status::{
    BROKEN, NO_MEMORY, OKAY, REFUSED, Unmet, fault_status, limit_status, status_of, tell,
    unmet_status, usage_status, words_status,
};
pub use words::{
    ACTIONS, CELLS, DOCUMENTS, PEOPLE, RESOURCES, WordsFault, WrongLimit, command, given_words,
};
