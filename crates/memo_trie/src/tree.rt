//! A tree of ways.

ghost use Rattle.std.specs.Prelude.{◌≡◌, ◌<◌, [], IfOk, IsSome, List, None, OnErr, OnOk, Some, length};
ghost use Rattle.std.specs.Prelude.{option_copied, slice_get};
ghost use Rattle.memo_trie.specs.Tree.{AddsTo, Ends, Grows, IsAlike, IsTree, Reaches, Stays, Turn, key_at, key_in};
ghost use Rattle.memo_trie.specs.Tree.{next_at, next_in};
ghost use Rattle.memo_trie.specs.declared.node.Node.TheVariants.{Nothing};

use crate::fork::Fork;
use crate::node::Node;
use std::alloc::{AllocError, Global};

/// So many places there are at most before one more is made.
const MOST_BEFORE: usize = 4_294_967_295;

/// A tree of ways: at each place a question, with a branch for each number that it found, the end of a way, or nothing
/// yet. The first place is where each way begins.
#[derive(Drop)]
pub struct Trie<K, L> {
    pub nodes: Vec<Node<K, L>>,
    pub ghost tree: { IsTree nodes.items },
}

impl<K, L> Trie<K, L> {
    /// A tree without places, for which nothing is allocated.
    ///
    /// Its contract is an equation.
    pub fn new(alloc: Global) -> Trie<K, L>
        ensures { result.nodes.items ≡ [] }
    {
        Trie {
            nodes: Vec::new(alloc),
        }
    }

    /// How many places there are.
    ///
    /// Its contract is an equation.
    pub fn len(&self) -> usize
        ensures { result ≡ length self.now.nodes.items }
    {
        self.nodes.len()
    }

    /// What stands at a place, if it is one.
    ///
    /// Its contract is an equation.
    pub fn get(&self, place: usize) -> Option<&Node<K, L>>
        ensures there { option_copied result ≡ slice_get self.now.nodes.items place }
        ensures tree { IsTree self.now.nodes.items }
    {
        self.nodes.get(place)
    }
}

impl<K: Drop, L: Drop> Trie<K, L> {
    /// Makes the first place, if there is none: nothing stands there then.
    ///
    /// Its contract leaves open: how places stand in the list, as long as the same ways lead to the same ends.
    pub fn begin(&mut self) -> Result<(), AllocError>
        ensures stays { Stays self.old.nodes.items self.new.nodes.items }
        ensures ok { OnOk result (0 < length self.new.nodes.items) }
    {
        if self.nodes.is_empty() {
            self.nodes.push(Node::Nothing)?;
        }
        Ok(())
    }

    /// Asks a question at a place where nothing stands, with a branch for one number, and gives the place to which that
    /// leads. After a refusal all is as before.
    ///
    /// Its contract leaves open: which place is the new one, and how places stand in the list.
    pub fn ask(
        &mut self,
        alloc: Global,
        place: usize,
        key: K,
        number: u32,
    ) -> Result<usize, AllocError>
        requires { slice_get self.old.nodes.items place ≡ Some Nothing }
        ensures ok { IfOk result (Grows self.old.nodes.items self.new.nodes.items place
            (record { key = key; number = number })) }
        ensures err { OnErr result (self.new.nodes.items ≡ self.old.nodes.items) }
    {
        let below = self.room()?;
        self.nodes.push(Node::Nothing)?;
        self.nodes[place] = Node::Ask(Fork::new(alloc, key, number, below));
        Ok(below as usize)
    }

    /// Adds a branch for a number that the question at a place didn't find before, and gives the place to which it
    /// leads. After a refusal the same ways lead to the same ends.
    ///
    /// Its contract leaves open: which place is the new one, and how places stand in the list.
    pub fn branch(&mut self, place: usize, number: u32) -> Result<usize, AllocError>
        requires asks { IsSome (key_at self.old.nodes.items place) }
        requires free { next_at self.old.nodes.items place number ≡ None }
        ensures ok { (key : K) → key_at self.old.nodes.items place ≡ Some key
            → IfOk result (Grows self.old.nodes.items self.new.nodes.items place
            (record { key = key; number = number })) }
        ensures err { OnErr result (Stays self.old.nodes.items self.new.nodes.items) }
    {
        let below = self.room()?;
        self.nodes.push(Node::Nothing)?;
        add_branch(&mut self.nodes[place], number, below)?;
        Ok(below as usize)
    }

    // The place that the next one will be.
    fn room(&self) -> Result<u32, AllocError>
        ensures { IfOk result (λ p. p ≡ length self.now.nodes.items) }
    {
        let place = self.nodes.len();
        if place > MOST_BEFORE {
            return Err(AllocError);
        }
        Ok(place as u32)
    }

    /// Ends a way at a place where nothing stands. It takes no memory.
    ///
    /// Its contract leaves open: how places stand in the list, as long as each way leads where it is said to.
    pub fn end(&mut self, place: usize, leaf: L)
        requires { slice_get self.old.nodes.items place ≡ Some Nothing }
        ensures { (way : List (Turn K)) → Reaches self.old.nodes.items place way
            → Ends self.old.nodes.items self.new.nodes.items way leaf }
    {
        self.nodes[place] = Node::Leaf(leaf);
    }
}

// Adds a branch to a question for a number that it didn't find before. After a refusal it is as before.
fn add_branch<K, L>(node: &mut Node<K, L>, number: u32, below: u32) -> Result<(), AllocError>
    requires asks { IsSome (key_in (Some node.old)) }
    requires free { next_in (Some node.old) number ≡ None }
    ensures ok { OnOk result ((key : K) → key_in (Some node.old) ≡ Some key
        → AddsTo node.old node.new key number below) }
    ensures err { OnErr result (IsAlike (Some node.old) (Some node.new)) }
{
    match node {
        Node::Ask(fork) => fork.add(number, below),
        _ => unreachable!(),
    }
}
