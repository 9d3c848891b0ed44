//! Equal documents and parts of them, each with memory of its own.
#![tactic(auto)]

mod copied;
mod expression;
mod given;
mod policy;
mod target;
mod tree;

pub use expression::copied_definitions;
pub use policy::copied_rule;
pub use target::copied_target;
pub use tree::copied_tree;
