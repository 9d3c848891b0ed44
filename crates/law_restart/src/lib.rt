//! The lines that make a review anew: a service that is told the dump of another comes to the other's state.
#![tactic(auto)]

mod law;

pub use law::{
    dumps_restart, edits_read_back, new_services_are_empty, replies_read_back, replies_restart,
    taken_dumps_restart, taken_replies_restart, texts_are_lines, texts_read_back,
};
