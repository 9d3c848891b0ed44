//! The look-ups that an evaluation makes.

ghost use Rattle.std.specs.Prelude.{◌≡◌, [], false, length, IfOk, OnErr, OnOk};
ghost use Rattle.ent_request.specs.Noted.{has_key, with_key};
ghost use Rattle.ent_request.specs.declared.key.ReadKey.TheVariants.{Ref};

use crate::key::ReadKey;
use ent_policy::Reference;
use ent_values::Items;
use std::alloc::{AllocError, Global};
use std::collections::BTreeSet;
use std::marker::Model;

/// The keys that were looked up, each once, in their order. A key takes time logarithmic in their number.
#[derive(Drop)]
pub struct Reads {
    keys: BTreeSet<ReadKey>,
}

impl Model for Reads {
    ghost use Rattle.std.specs.Prelude.{List};
    ghost use Rattle.ent_request.specs.declared.key.ReadKey.{ReadKey};

    ghost Value = { List ReadKey };

    ghost view = { λ r. r.keys.keys };
}

impl Reads {
    /// No keys, for which nothing is allocated.
    ///
    /// Its contract is an equation.
    pub fn new(alloc: Global) -> Reads
        ensures { result ≡ [] }
    {
        Reads {
            keys: BTreeSet::new(alloc),
        }
    }

    /// How many keys there are.
    ///
    /// Its contract is an equation.
    pub fn len(&self) -> usize
        ensures { result ≡ length self.now }
    {
        self.keys.len()
    }

    /// Whether a key is there.
    ///
    /// Its contract is an equation.
    pub fn contains(&self, key: &ReadKey) -> bool
        ensures { result ≡ has_key self.now key.now }
    {
        self.keys.contains(key)
    }

    /// The keys, in their order. They are moved and not copied, into one list that is allocated for them.
    ///
    /// Its contract is an equation but for memory.
    pub fn into_items(self, alloc: Global) -> Result<Items<ReadKey>, AllocError>
        ensures { IfOk result (λ keys. keys ≡ self) }
    {
        let mut keys = Items::with_capacity(alloc, self.keys.len())?;
        for key in self.keys {
            keys.push(key)?;
        }
        Ok(keys)
    }

    /// Notes a key, if it isn't there yet. After a refusal the keys are as before. A key that is there takes no memory.
    ///
    /// Its contract is an equation but for memory.
    pub fn note(&mut self, key: ReadKey) -> Result<(), AllocError>
        ensures ok { OnOk result (self.new ≡ with_key self.old key) }
        ensures err { OnErr result (self.new ≡ self.old) }
        ensures known { OnErr result (has_key self.old key ≡ false) }
    {
        self.keys.insert(key)?;
        Ok(())
    }

    /// The same of the key of a reference, of which a copy is noted.
    ///
    /// Its contract is an equation but for memory.
    #[inline(never)]
    pub fn note_reference(&mut self, alloc: Global, reference: &Reference) -> Result<(), AllocError>
        ensures { OnOk result (self.new ≡ with_key self.old (Ref reference.now)) }
    {
        self.note(ReadKey::Ref(reference.copy(alloc)?))
    }
}
