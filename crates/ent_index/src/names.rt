//! Cells by a name.

ghost use Rattle.std.specs.Prelude.{◌≡◌, ℕ, IfOk, OnOk, false, option_copied, true};
ghost use Rattle.std.specs.Bool.{OnFalse, OnTrue};
ghost use Rattle.ent_index.specs.Groups.{HasNobody, StayUnderBut, is_under};
ghost use Rattle.ent_index.specs.proofs_only.Grouped.{roll_under};

use crate::roll::Roll;
use ent_values::Text;
use std::alloc::{AllocError, Global};
use std::collections::BTreeMap;

/// The cells of each name.
#[derive(Drop)]
pub(crate) struct NameCells {
    rolls: BTreeMap<Text, Roll>,
}

impl NameCells {
    /// No names, for which nothing is allocated.
    pub(crate) fn new(alloc: Global) -> NameCells
        ensures { HasNobody result }
    {
        NameCells {
            rolls: BTreeMap::new(alloc),
        }
    }

    /// The cells of a name, if there are any.
    pub(crate) fn get(&self, name: &Text) -> Option<&Roll>
        ensures { option_copied result ≡ roll_under self.now name.now }
    {
        self.rolls.get(name)
    }

    // Puts a cell under a name that has one, and tells whether it has. Those that are there stay.
    fn put_there(&mut self, name: &Text, cell: u32) -> Result<bool, AllocError>
        ensures stay { StayUnderBut cell self.old self.new }
        ensures there { IfOk result (λ there. OnTrue there (is_under self.new name.now cell ≡ true)) }
        ensures absent { IfOk result (λ there. OnFalse there ((c : ℕ) → is_under self.new name.now c ≡ false)) }
    {
        match self.rolls.get_mut(name) {
            Some(roll) => {
                roll.put(cell)?;
                Ok(true)
            }
            None => Ok(false),
        }
    }

    /// Puts a cell under a name. Those that are there stay, also after a refusal.
    pub(crate) fn put(&mut self, alloc: Global, name: &Text, cell: u32) -> Result<(), AllocError>
        ensures there { OnOk result (is_under self.new name.now cell ≡ true) }
        ensures stay { StayUnderBut cell self.old self.new }
    {
        let is_there = self.put_there(name, cell)?;
        if is_there {
            return Ok(());
        }
        let mut roll = Roll::new(alloc);
        roll.put(cell)?;
        let name = name.copy(alloc)?;
        self.rolls.insert(name, roll)?;
        Ok(())
    }

    // Takes a cell out under a name, and tells whether there is no other one. It takes no memory.
    fn take_one(&mut self, name: &Text, cell: u32) -> bool
        ensures stay { StayUnderBut cell self.old self.new }
        ensures gone { is_under self.new name.now cell ≡ false }
        ensures last { OnTrue result ((c : ℕ) → is_under self.new name.now c ≡ false) }
    {
        match self.rolls.get_mut(name) {
            Some(roll) => {
                roll.take(cell);
                roll.is_empty()
            }
            None => false,
        }
    }

    /// Takes a cell out under a name. The others stay. It takes no memory.
    pub(crate) fn take(&mut self, name: &Text, cell: u32)
        ensures stay { StayUnderBut cell self.old self.new }
        ensures gone { is_under self.new name.now cell ≡ false }
    {
        let is_last = self.take_one(name, cell);
        if !is_last {
            return;
        }
        self.rolls.remove(name);
    }
}
