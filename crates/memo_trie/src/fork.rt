//! A question of a tree, with its branches.

ghost use Rattle.std.specs.Prelude.{◌≡◌, None, OnErr, OnOk};
ghost use Rattle.memo_trie.specs.Tree.{AddsBranch, IsOnlyBranch, IsSameFork, branch_of};

use std::alloc::{AllocError, Global};
use std::collections::BTreeMap;

/// A question, and for each number that it found the place to which that leads. There is at least one, which stands
/// here itself, since mostly there is no other.
#[derive(Drop)]
pub struct Fork<K> {
    key: K,
    number: u32,
    below: u32,
    others: BTreeMap<u32, u32>,
}

impl<K> Fork<K> {
    // A question that found one number.
    pub(crate) fn new(alloc: Global, key: K, number: u32, below: u32) -> Fork<K>
        ensures key { result.key ≡ key }
        ensures branch { IsOnlyBranch result number below }
    {
        Fork {
            key,
            number,
            below,
            others: BTreeMap::new(alloc),
        }
    }

    /// The place to which a number leads, if it was found before.
    ///
    /// Its contract is an equation.
    pub fn branch(&self, number: u32) -> Option<usize>
        ensures { result ≡ branch_of self.now number }
    {
        if number == self.number {
            return Some(self.below as usize);
        }
        let below = *self.others.get(&number)?;
        Some(below as usize)
    }

    // Adds a number that wasn't found before.
    pub(crate) fn add(&mut self, number: u32, below: u32) -> Result<(), AllocError>
        requires { branch_of self.old number ≡ None }
        ensures ok { OnOk result (AddsBranch self.old self.new number below) }
        ensures err { OnErr result (IsSameFork self.old self.new) }
    {
        self.others.insert(number, below)?;
        Ok(())
    }
}

impl<K: Copy> Fork<K> {
    /// The question.
    ///
    /// Its contract is an equation.
    pub fn key(&self) -> K
        ensures { result ≡ self.now.key }
    {
        self.key
    }
}
