//! A tree of ways: which leaf stands where each question on the way found a certain number.
#![tactic(auto)]

mod fork;
mod node;
mod tree;

pub use fork::Fork;
pub use node::Node;
pub use tree::Trie;
