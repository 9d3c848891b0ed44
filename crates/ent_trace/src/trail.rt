//! The policies that an evaluation is in.

ghost use Rattle.std.specs.Prelude.{◌≡◌, ◌∷◌, ◌++◌, ◌-◌, [], IfOk, IsTrue, OnOk, length, take};

use ent_policy::{DocKey, Kind, Version};
use ent_values::{Items, Text};
use std::alloc::{AllocError, Global};
use std::hash::{FoldHasher, Hash, Hasher};
use std::marker::Model;

// The policies from the root on to the one that an evaluation is in, and for each a number made of it and of those
// above it.
#[derive(Drop)]
pub(crate) struct Trail {
    keys: Items<DocKey>,
    numbers: Vec<u64>,
}

impl Model for Trail {
    ghost use Rattle.std.specs.Prelude.{List};
    ghost use Rattle.ent_policy.specs.declared.key.DocKey.{DocKey};

    ghost Value = { List DocKey };

    ghost view = { λ t. t.keys };
}

impl Trail {
    // Above the root. Nothing is allocated.
    pub(crate) fn new(alloc: Global) -> Trail
        ensures { result ≡ [] }
    {
        Trail {
            keys: Items::new(alloc),
            numbers: Vec::new(alloc),
        }
    }

    // Into a policy or a set.
    pub(crate) fn enter(
        &mut self,
        alloc: Global,
        kind: Kind,
        id: &Text,
        version: &Version,
    ) -> Result<(), AllocError>
        ensures { OnOk result (self.new
            ≡ self.old ++ record { kind = kind; id = id.now; version = version.now } ∷ []) }
    {
        let number = number_below(self.number(), id, version);
        self.numbers.push(number)?;
        self.keys.push(DocKey {
            kind,
            id: id.copy(alloc)?,
            version: version.copy(),
        })
    }

    // And out of it.
    pub(crate) fn leave(&mut self)
        ensures { self.new ≡ take (length self.old - 1) self.old }
    {
        self.keys.truncate(self.keys.len().saturating_sub(1));
        self.numbers.truncate(self.numbers.len().saturating_sub(1));
    }

    // A number made of them. Few others have the same.
    pub(crate) fn number(&self) -> u64 {
        match self.numbers.last() {
            None => 0,
            Some(number) => *number,
        }
    }

    // Whether these are the keys.
    pub(crate) fn has_keys(&self, keys: &[DocKey]) -> bool
        ensures { IsTrue result → keys.now ≡ self.now }
    {
        same_path(keys, self.keys.as_slice())
    }

    // The keys.
    pub(crate) fn path(&self, alloc: Global) -> Result<Items<DocKey>, AllocError>
        ensures { IfOk result (λ p. p ≡ self.now) }
    {
        copied_path(alloc, self.keys.as_slice())
    }
}

// A number made of that of the policies above and of a key.
fn number_below(above: u64, id: &Text, version: &Version) -> u64 {
    let mut state = FoldHasher::default();
    above.hash(&mut state);
    id.hash(&mut state);
    version.numbers().hash(&mut state);
    state.finish()
}

// Whether two paths are equal.
#[tactic(auto, using(ent_request::proofs::Sames::equal_paths))]
fn same_path(first: &[DocKey], second: &[DocKey]) -> bool
    ensures { IsTrue result → first.now ≡ second.now }
{
    first == second
}

// An equal path.
fn copied_path(alloc: Global, path: &[DocKey]) -> Result<Items<DocKey>, AllocError>
    ensures { IfOk result (λ p. p ≡ path.now) }
{
    let mut copies = Items::with_capacity(alloc, path.len())?;
    for key in path {
        copies.push(key.copy(alloc)?)?;
    }
    Ok(copies)
}
