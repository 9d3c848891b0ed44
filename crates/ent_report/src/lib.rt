//! The desk: a review with a mark for each of sixteen sessions, notices of what changed since a mark, and reports of
//! the present table.
#![tactic(auto)]

mod counts;
mod desk;
mod fault;
mod law;
mod notices;
mod reports;
mod rules;

pub use counts::Counts;
pub use desk::{Desk, SESSIONS};
pub use fault::{NoticeFault, ReportFault};
pub use law::notices_are_the_difference;
pub use notices::Notice;
