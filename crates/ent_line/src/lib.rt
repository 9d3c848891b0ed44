//! The service over bytes: lines out of a reader, and one reply for each into a writer; and the lines of a dump.
#![tactic(auto)]

mod answering;
mod cell;
mod dumping;
mod explaining;
mod faulting;
mod holding;
mod input;
mod law;
mod listed;
mod refusing;
mod reply;
mod reporting;
mod reports;
mod selecting;
mod service;
mod serving;
mod standing;

pub use answering::Answering;
pub use ent_command::{NoEdit, command_words, only_asks};
pub use ent_dump::{LinesFault, dump_lines};
pub use ent_wire::{LINE_LIMIT, Refusal, ServeFault, send_all};
pub use input::one_split;
pub use law::{questions_leave_all, replies_are_fresh, sessions_are_separate};
pub use reply::Reply;
pub use service::Service;
pub use serving::{serve, serve_review, serve_within};
