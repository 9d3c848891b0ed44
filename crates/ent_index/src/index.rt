//! Which cells read which keys.

ghost use Rattle.std.specs.Prelude.{◌≡◌, ◌++◌, [], ◌∷◌, ℕ, IfOk, OnErr, OnOk, if◌then◌else◌, not, take};
ghost use Rattle.std.specs.FinMap.{empty, keys};
ghost use Rattle.std.specs.List.{All, filter};
ghost use Rattle.ent_index.specs.Asked.{asks_policy, asks_row};
ghost use Rattle.ent_index.specs.Index.{Adds, Forgets, HasCell, cells_of, has, is_pair_of};
ghost use Rattle.ent_index.specs.proofs_only.Steps.{is_pair, is_read};

use crate::asked::{first_key, key_of_row, references};
use crate::cells::SomeCells;
use crate::readers::{put_cell, take_cell};
use ent_finder::RowKey;
use ent_policy::Kind;
use ent_request::ReadKey;
use ent_values::Items;
use std::alloc::{AllocError, Global};
use std::collections::BTreeMap;
use std::marker::Model;

/// Which cells read which keys: the cells of each key that one reads.
#[derive(Drop)]
pub struct Index {
    alloc: Global,
    readers: BTreeMap<ReadKey, SomeCells>,
}

impl Model for Index {
    ghost use Rattle.std.specs.Coded.{coded_ℕ};
    ghost use Rattle.std.specs.FinMap.{code};
    ghost use Rattle.std.specs.FinSet.{code as set_code};
    ghost use Rattle.ent_request.specs.contracts.key.ReadKey as key;
    ghost use Rattle.ent_index.specs.Index.{IsSound, ReadIndex};
    ghost use Rattle.ent_index.specs.proofs_only.Stored.{index_of};

    ghost Value = { ReadIndex };

    ghost coded = { code key.the_row.coded (set_code coded_ℕ) };

    ghost view = { λ i. index_of i.readers };

    ghost invariant = { λ i. IsSound (index_of i.readers) };
}

impl Index {
    /// No pair, for which nothing is allocated.
    ///
    /// Its contract is an equation.
    pub fn new(alloc: Global) -> Index
        ensures { result ≡ empty }
    {
        Index {
            alloc,
            readers: BTreeMap::new(alloc),
        }
    }

    /// The cells that read a key, each once, in rising order.
    ///
    /// Its contract is an equation.
    pub fn cells_of(&self, key: &ReadKey) -> &[usize]
        ensures { result.now ≡ cells_of self.now key.now }
    {
        match self.readers.get(key) {
            Some(cells) => cells.as_slice(),
            None => &[],
        }
    }

    // Whether a cell reads a key.
    fn has(&self, key: &ReadKey, cell: usize) -> bool
        ensures { result ≡ has self.now key.now cell }
    {
        match self.readers.get(key) {
            Some(cells) => cells.contains(cell),
            None => false,
        }
    }

    // Puts a pair in. After a refusal all is as before.
    fn put(&mut self, key: &ReadKey, cell: usize) -> Result<(), AllocError>
        ensures ok { OnOk result (Adds (is_pair key.now cell) self.old self.new) }
        ensures err { OnErr result (self.new ≡ self.old) }
    {
        if self.readers.contains_key(key) {
            put_cell(&mut self.readers, key, cell)?;
            return Ok(());
        }
        let copy = key.copy(self.alloc)?;
        self.readers
            .insert(copy, SomeCells::of_one(self.alloc, cell)?)?;
        Ok(())
    }

    // Takes a pair out, if it is there, and its key, if no cell reads it then. It takes no memory.
    fn take(&mut self, key: &ReadKey, cell: usize)
        ensures { Forgets (is_pair key.now cell) self.old self.new }
    {
        if !take_cell(&mut self.readers, key, cell) {
            return;
        }
        self.readers.remove(key);
    }

    // Those of some keys that a cell doesn't read.
    fn unread(
        &self,
        alloc: Global,
        cell: usize,
        keys: &[ReadKey],
    ) -> Result<Items<ReadKey>, AllocError>
        ensures { IfOk result (λ unread. unread ≡ filter (λ k. not (has self.now k cell)) keys.now) }
    {
        let mut unread = Items::new(alloc);
        for key in keys {
            if !self.has(key, cell) {
                unread.push(key.copy(alloc)?)?;
            }
        }
        Ok(unread)
    }

    // Puts a cell in under some keys. After a refusal it stands under some first ones.
    fn put_all(&mut self, cell: usize, keys: &[ReadKey]) -> Result<(), AllocError>
        ensures ok { OnOk result (Adds (is_pair_of keys.now cell) self.old self.new) }
        ensures err { OnErr result ((n : ℕ) × Adds (is_pair_of (take n keys.now) cell) self.old self.new) }
    {
        for key in keys {
            self.put(key, cell)?;
        }
        Ok(())
    }

    /// Puts a cell in under some keys. After a refusal all is as before.
    ///
    /// Its contract leaves open: nothing that `cells_of` tells: the pairs are said, one by one, as those before and
    /// these.
    pub fn add(&mut self, cell: usize, keys: &[ReadKey]) -> Result<(), AllocError>
        ensures ok { OnOk result (Adds (is_pair_of keys.now cell) self.old self.new) }
        ensures err { OnErr result (self.new ≡ self.old) }
    {
        let unread = self.unread(self.alloc, cell, keys)?;
        let new = unread.as_slice();
        if let Err(error) = self.put_all(cell, new) {
            self.forget(cell, new);
            return Err(error);
        }
        Ok(())
    }

    /// Takes a cell out under some keys, wherever it is there. It takes no memory.
    ///
    /// Its contract leaves open: nothing that `cells_of` tells: the pairs are said, one by one, as those before but for
    /// these.
    pub fn forget(&mut self, cell: usize, keys: &[ReadKey])
        ensures { Forgets (is_pair_of keys.now cell) self.old self.new }
    {
        for key in keys {
            self.take(key, cell);
        }
    }

    // Puts a key last, if a cell reads it.
    fn push_read(&self, keys: &mut Items<ReadKey>, key: ReadKey) -> Result<(), AllocError>
        ensures { OnOk result (keys.new ≡ keys.old ++ (if is_read self.now key then key ∷ [] else [])) }
    {
        if self.readers.contains_key(&key) {
            keys.push(key)?;
        }
        Ok(())
    }

    /// The keys that a cell reads and whose values the row may change, in their order: those of an attribute that name
    /// the row, with no issuer or with the row's.
    ///
    /// Its contract is an equation but for memory.
    pub fn keys_of_row(&self, row: &RowKey) -> Result<Items<ReadKey>, AllocError>
        ensures keys { IfOk result (λ ks. ks ≡ filter (asks_row row.now) (keys self.now)) }
        ensures read { IfOk result (All (HasCell self.now)) }
    {
        let mut keys = Items::new(self.alloc);
        self.push_read(&mut keys, key_of_row(self.alloc, row, None)?)?;
        let Some(issuer) = &row.issuer else {
            return Ok(keys);
        };
        let issuer = issuer.copy(self.alloc)?;
        self.push_read(&mut keys, key_of_row(self.alloc, row, Some(issuer))?)?;
        Ok(keys)
    }

    /// The keys that a cell reads and that are references of a kind and an id, in their order.
    ///
    /// Its contract is an equation but for memory.
    pub fn keys_of_policy(&self, kind: Kind, id: &str) -> Result<Items<ReadKey>, AllocError>
        ensures keys { IfOk result (λ ks. ks ≡ filter (asks_policy kind id.now) (keys self.now)) }
        ensures read { IfOk result (All (HasCell self.now)) }
    {
        let first = first_key(self.alloc, kind, id)?;
        references(self.alloc, self.readers.range(&first..), kind, id)
    }
}
