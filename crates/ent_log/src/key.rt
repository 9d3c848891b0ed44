//! Keys that may have several owners, in the order of their values.

ghost use Rattle.std.specs.Prelude.{◌≡◌};

use ent_values::Shared;
use std::cmp::Ordering;
use std::marker::Model;

/// A key under which an answer is found. Two are compared by their values.
#[derive(Drop)]
pub(crate) struct SharedKey<K> {
    key: Shared<K>,
}

impl<K> Model for SharedKey<K> {
    ghost Value = { K };

    ghost coded = { K.code };

    ghost view = { λ k. k.key };
}

impl<K> SharedKey<K> {
    /// The key that one of its owners gives.
    pub(crate) fn new(key: Shared<K>) -> SharedKey<K>
        ensures { result ≡ key }
    {
        SharedKey { key }
    }

    /// The key.
    pub(crate) fn get(&self) -> &K
        ensures { result.now ≡ self.now }
    {
        self.key.get()
    }

    /// The key as its owner.
    pub(crate) fn into_shared(self) -> Shared<K>
        ensures { result ≡ self }
    {
        let SharedKey { key } = self;
        key
    }
}

impl<K: PartialEq> PartialEq for SharedKey<K> {
    ghost eq = { K.eq };

    ghost laws = { K.laws };

    fn eq(&self, other: &SharedKey<K>) -> bool {
        self.get() == other.get()
    }
}

impl<K: Eq> Eq for SharedKey<K> {
    ghost laws = { K.Eq.laws };
}

impl<K: PartialOrd> PartialOrd for SharedKey<K> {
    ghost partial_cmp = { K.partial_cmp };

    ghost laws = { K.PartialOrd.laws };

    fn partial_cmp(&self, other: &SharedKey<K>) -> Option<Ordering> {
        self.get().partial_cmp(other.get())
    }
}

impl<K: Ord> Ord for SharedKey<K> {
    ghost cmp = { K.cmp };

    ghost total = { K.total };

    ghost matches_partial_cmp = { K.matches_partial_cmp };

    ghost matches_eq = { K.matches_eq };

    fn cmp(&self, other: &SharedKey<K>) -> Ordering {
        self.get().cmp(other.get())
    }
}
