//! The numbers of the questions of a group.

ghost use Rattle.std.specs.Prelude.{◌≡◌, IfOk};
ghost use Rattle.ent_index.specs.Rolls.{is_among};

use crate::roll::Roll;
use ent_values::Items;
use std::alloc::{AllocError, Global};
use std::marker::Model;

/// The numbers of some questions: as they were asked, and as a roll, in which one is found.
#[derive(Drop)]
pub(crate) struct Numbers {
    listed: Items<u32>,
    roll: Roll,
}

impl Model for Numbers {
    ghost use Rattle.std.specs.Prelude.{◌≡◌, List, ℕ};
    ghost use Rattle.ent_index.specs.Rolls.{is_among, is_member};

    ghost Value = { List ℕ };

    ghost view = { λ n. n.listed };

    ghost invariant = { λ n. (m : ℕ) → is_member n.roll m ≡ is_among n.listed m };
}

impl Numbers {
    /// These, which are copied.
    pub(crate) fn of(alloc: Global, numbers: &[u32]) -> Result<Numbers, AllocError>
        ensures { IfOk result (λ n. n ≡ numbers.now) }
    {
        let mut roll = Roll::new(alloc);
        for number in numbers {
            roll.put(*number)?;
        }
        let listed = Items::from_vec(Vec::from_slice(alloc, numbers)?);
        Ok(Numbers { listed, roll })
    }

    /// The numbers, as they were asked.
    pub(crate) fn as_slice(&self) -> &[u32]
        ensures { result.now ≡ self.now }
    {
        self.listed.as_slice()
    }

    /// Whether a number is among them.
    pub(crate) fn contains(&self, number: u32) -> bool
        ensures { result ≡ is_among self.now number }
    {
        self.roll.contains(number)
    }
}
