//! The cells of each key.

ghost use Rattle.std.specs.Prelude.{◌≡◌, ◌↔◌, IsSome, IsTrue, OnErr, OnOk, Some};
ghost use Rattle.std.specs.BTreeMap.{get};
ghost use Rattle.ent_request.specs.Noted.{read_cmp};
ghost use Rattle.ent_index.specs.Cells.{no_cells};
ghost use Rattle.ent_index.specs.proofs_only.Steps.{Puts, with_cell, without_cell};

use crate::cells::SomeCells;
use ent_request::ReadKey;
use std::alloc::AllocError;
use std::collections::BTreeMap;

/// Puts a cell in under a key that has cells. After a refusal these are as before.
pub(crate) fn put_cell(
    readers: &mut BTreeMap<ReadKey, SomeCells>,
    key: &ReadKey,
    cell: usize,
) -> Result<(), AllocError>
    requires { IsSome (get read_cmp readers.old key.now) }
    ensures ok { OnOk result (Puts (λ cells. with_cell cells cell) readers.old readers.new key.now) }
    ensures err { OnErr result (Puts (λ cells. cells) readers.old readers.new key.now) }
{
    match readers.get_mut(key) {
        Some(cells) => cells.insert(cell),
        None => unreachable!(),
    }
}

/// Takes a cell out under a key, and says whether the key is left with no cell. It takes no memory.
pub(crate) fn take_cell(
    readers: &mut BTreeMap<ReadKey, SomeCells>,
    key: &ReadKey,
    cell: usize,
) -> bool
    ensures puts { Puts (λ cells. without_cell cells cell) readers.old readers.new key.now }
    ensures last { IsTrue result ↔ (get read_cmp readers.new key.now ≡ Some no_cells) }
{
    match readers.get_mut(key) {
        Some(cells) => {
            cells.remove(cell);
            cells.is_empty()
        }
        None => false,
    }
}
