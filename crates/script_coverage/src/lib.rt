//! Which rules of documents gave decisions, as replies tell them.
#![tactic(auto)]

mod policies;
mod rules;
mod seen;
mod stored;
mod telling;

pub use rules::{RuleName, unseen};
pub use seen::see_reply;
pub use stored::{commands_in, distinct, rules_in, told_of, told_text};
pub use telling::shown;
