//! SomeCells in rising order.

ghost use Rattle.std.specs.Prelude.{◌≡◌, ◌↔◌, IfOk, IsTrue, OnErr, OnOk};
ghost use Rattle.ent_index.specs.Cells.{has_cell, in_order, no_cells};
ghost use Rattle.ent_index.specs.proofs_only.Steps.{with_cell, without_cell};

use std::alloc::{AllocError, Global};
use std::marker::Model;

/// Some cells, each once, in rising order.
#[derive(Drop)]
pub(crate) struct SomeCells {
    cells: Vec<usize>,
}

impl Model for SomeCells {
    ghost use Rattle.std.specs.Coded.{coded_ℕ};
    ghost use Rattle.std.specs.FinMap.{from_sorted, is_sorted};
    ghost use Rattle.std.specs.FinSet.{code};
    ghost use Rattle.std.specs.Ordering.{nat_cmp};
    ghost use Rattle.std.specs.Prelude.{T};
    ghost use Rattle.ent_index.specs.Cells.{CellSet};
    ghost use Rattle.ent_index.specs.proofs_only.Stored.{marked};

    ghost Value = { CellSet };

    ghost coded = { code coded_ℕ };

    ghost view = { λ c. from_sorted (marked c.cells.items) };

    ghost invariant = { λ c. T (is_sorted nat_cmp (marked c.cells.items)) };
}

impl SomeCells {
    /// One cell, for which at most one allocation is made.
    pub(crate) fn of_one(alloc: Global, cell: usize) -> Result<SomeCells, AllocError>
        ensures { IfOk result (λ c. c ≡ with_cell no_cells cell) }
    {
        let mut cells = Vec::with_capacity(alloc, 1)?;
        cells.push(cell)?;
        Ok(SomeCells { cells })
    }

    /// The cells.
    pub(crate) fn as_slice(&self) -> &[usize]
        ensures { result.now ≡ in_order self.now }
    {
        self.cells.as_slice()
    }

    /// Whether there is no cell.
    pub(crate) fn is_empty(&self) -> bool
        ensures { IsTrue result ↔ (self.now ≡ no_cells) }
    {
        self.cells.as_slice().is_empty()
    }

    /// Whether a cell is there.
    pub(crate) fn contains(&self, cell: usize) -> bool
        ensures { result ≡ has_cell self.now cell }
    {
        self.cells.binary_search(&cell).is_ok()
    }

    /// Puts a cell in. After a refusal the cells are as before.
    pub(crate) fn insert(&mut self, cell: usize) -> Result<(), AllocError>
        ensures ok { OnOk result (self.new ≡ with_cell self.old cell) }
        ensures err { OnErr result (self.new ≡ self.old) }
    {
        if let Err(place) = self.cells.binary_search(&cell) {
            self.cells.insert(place, cell)?;
        }
        Ok(())
    }

    /// Takes a cell out, if it is there. It takes no memory.
    pub(crate) fn remove(&mut self, cell: usize)
        ensures { self.new ≡ without_cell self.old cell }
    {
        if let Ok(place) = self.cells.binary_search(&cell) {
            self.cells.remove(place);
        }
    }
}
