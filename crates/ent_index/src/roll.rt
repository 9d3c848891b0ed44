//! Sets of cells that join and leave.

ghost use Rattle.std.specs.Prelude.{◌≡◌, ◌||◌, [], ℕ, IfOk, IsTrue, OnErr, OnOk};
ghost use Rattle.std.specs.Prelude.{false, length, nat_eq, true};
ghost use Rattle.std.specs.List.Sorted.{IsStrictlySortedBy};
ghost use Rattle.std.specs.Ordering.{nat_cmp};
ghost use Rattle.ent_index.specs.Rolls.{cells_in, cells_of, is_member};
ghost use Rattle.ent_index.specs.proofs_only.Rolls.{AreWords, IsWord};

use crate::words::{BITS, Word, are_sparse, has, keep_filled, push_all, put_in, take_out};
use std::alloc::{AllocError, Global};
use std::marker::Model;

/// Some cells, each once: as words of bits, in the order of their places, how many there are, and how many were taken
/// out since words without a cell were last looked for.
#[derive(Drop)]
pub(crate) struct Roll {
    words: Vec<Word>,
    count: usize,
    taken: usize,
}

impl Model for Roll {
    ghost use Rattle.std.specs.Prelude.{◌≡◌, List, length, ℕ};
    ghost use Rattle.ent_index.specs.Rolls.{cells_of};
    ghost use Rattle.ent_index.specs.proofs_only.Rolls.{AreWords};

    ghost Value = { List ℕ };

    ghost view = { λ r. cells_of r.words.items };

    ghost invariant = { λ r. AreWords 0 r.words.items × (r.count ≡ length (cells_of r.words.items)) };
}

impl Roll {
    /// No cells, for which nothing is allocated.
    pub(crate) fn new(alloc: Global) -> Roll
        ensures { result ≡ [] }
    {
        Roll {
            words: Vec::new(alloc),
            count: 0,
            taken: 0,
        }
    }

    /// Whether there is no cell.
    pub(crate) fn is_empty(&self) -> bool
        ensures { IsTrue result → self.now ≡ [] }
    {
        self.count == 0
    }

    /// How many cells there are.
    pub(crate) fn len(&self) -> usize
        ensures { result ≡ length self.now }
    {
        self.count
    }

    /// Whether a cell is there.
    pub(crate) fn contains(&self, cell: u32) -> bool
        ensures { result ≡ is_member self.now cell }
    {
        has(&self.words, cell)
    }

    // Puts the cells of a word in. After a refusal they are as before.
    fn put_word(&mut self, word: &Word) -> Result<(), AllocError>
        requires { IsWord word.now }
        ensures cells { OnOk result ((c : ℕ)
            → is_member self.new c ≡ (is_member self.old c || is_member (cells_in word.now) c)) }
        ensures err { OnErr result (self.new ≡ self.old) }
    {
        let added = put_in(&mut self.words, *word)?;
        self.count += added as usize;
        Ok(())
    }

    // Puts the cells of words in.
    fn put_words(&mut self, words: &[Word]) -> Result<(), AllocError>
        requires { AreWords 0 words.now }
        ensures { OnOk result ((c : ℕ)
            → is_member self.new c ≡ (is_member self.old c || is_member (cells_of words.now) c)) }
    {
        for word in words {
            self.put_word(word)?;
        }
        Ok(())
    }

    /// Puts a cell in. After a refusal they are as before.
    pub(crate) fn put(&mut self, cell: u32) -> Result<(), AllocError>
        ensures cells { OnOk result ((c : ℕ) → is_member self.new c ≡ (is_member self.old c || nat_eq c cell)) }
        ensures there { OnOk result (is_member self.new cell ≡ true) }
        ensures stay { (c : ℕ) → is_member self.old c ≡ true → is_member self.new c ≡ true }
    {
        let word = Word {
            place: cell / BITS,
            bits: 1 << (cell % BITS),
        };
        self.put_word(&word)?;
        Ok(())
    }

    /// Takes a cell out. It takes no memory.
    pub(crate) fn take(&mut self, cell: u32)
        ensures cells { (c : ℕ) → nat_eq c cell ≡ false → is_member self.new c ≡ is_member self.old c }
        ensures gone { is_member self.new cell ≡ false }
    {
        let taken = take_out(&mut self.words, cell);
        self.count -= taken as usize;
        self.tidy();
    }

    // Takes out the words without a cell, where most are: it looks for them after as many cells were taken out as half
    // of the words.
    fn tidy(&mut self)
        ensures { self.new ≡ self.old }
    {
        self.taken = self.taken.saturating_add(1);
        if self.taken <= self.words.len() / 2 {
            return;
        }
        self.taken = 0;
        if are_sparse(&self.words) {
            keep_filled(&mut self.words);
        }
    }

    /// Puts the cells into another roll.
    pub(crate) fn add_to(&self, roll: &mut Roll) -> Result<(), AllocError>
        ensures { OnOk result ((c : ℕ) → is_member roll.new c ≡ (is_member roll.old c || is_member self.now c)) }
    {
        roll.put_words(&self.words)
    }

    /// The cells, in rising order.
    pub(crate) fn to_vec(&self, alloc: Global) -> Result<Vec<usize>, AllocError>
        ensures cells { IfOk result (λ v. v.items ≡ self.now) }
        ensures ordered { IfOk result (λ v. IsStrictlySortedBy nat_cmp v.items) }
    {
        let mut cells = Vec::with_capacity(alloc, self.count)?;
        push_all(&self.words, &mut cells)?;
        Ok(cells)
    }
}
