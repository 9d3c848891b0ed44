//! What stands at the places of a tree.

use crate::fork::Fork;

/// What stands at a place.
#[derive(Drop)]
pub enum Node<K, L> {
    /// Nothing yet.
    Nothing,
    /// A question, with a branch for each number that it found.
    Ask(Fork<K>),
    /// The end of a way.
    Leaf(L),
}
