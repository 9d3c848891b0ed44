//! Files of sessions: lines for a service, and the replies that are expected of it.
#![tactic(auto)]

mod bracket;
mod building;
mod cut;
mod fault;
mod line;
mod number;
mod reading;
mod sending;
mod session;
mod standing;
mod writing;

pub use fault::{Mistake, SessionFault};
pub use reading::read_sessions;
pub use sending::read_lines;
pub use session::{Expected, ReplyComparison, SentLine, Session};
