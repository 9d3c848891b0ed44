//! Changes of answers.

use ent_values::Shared;

/// A key to which two tables give different answers, or only one of them gives an answer, with both.
#[derive(Drop)]
pub struct LoggedChange<K, A> {
    pub key: Shared<K>,
    pub before: Option<Shared<A>>,
    pub after: Option<Shared<A>>,
}
