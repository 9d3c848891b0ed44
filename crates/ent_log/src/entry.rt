//! Old answers, and when they were logged.

use ent_values::Shared;

/// A key and its answer before an edit, or none if it had none.
#[derive(Drop)]
pub struct OldAnswer<K, A> {
    pub key: Shared<K>,
    pub answer: Option<Shared<A>>,
}

/// An old answer, and the serial before the edit that changed it.
#[derive(Drop)]
pub struct Logged<K, A> {
    pub(crate) serial: u64,
    pub(crate) old: OldAnswer<K, A>,
}
