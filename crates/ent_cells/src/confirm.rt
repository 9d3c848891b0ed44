//! Which cells read what is wanted: the groups say where to look, and a cell's own group and names decide.

ghost use Rattle.std.specs.Prelude.{◌≡◌, IfOk};
ghost use Rattle.std.specs.List.{filter};
ghost use Rattle.slab.specs.Slab.{get};
ghost use Rattle.ent_cells.specs.proofs_only.Grouping.{wanted_at};

use crate::cell::Cell;
use ent_index::{Groups, Wanted};
use slab::Slab;
use std::alloc::{AllocError, Global};

/// Whether there is a cell under a key, and it reads what is wanted.
pub(crate) fn is_touched(
    cells: &Slab<Cell>,
    groups: &Groups,
    key: usize,
    wanted: &[Wanted<'_>],
) -> bool
    ensures { result ≡ wanted_at groups.now wanted.now (get cells.now key) }
{
    match cells.get(key) {
        Some(cell) => {
            let who = cell.who.get();
            groups.reads(
                cell.said.group,
                &who.person,
                &who.action,
                &who.resource,
                wanted,
            )
        }
        None => false,
    }
}

/// Those of some cells that read what is wanted, in their order.
pub(crate) fn keep_touched(
    alloc: Global,
    cells: &Slab<Cell>,
    groups: &Groups,
    candidates: &[usize],
    wanted: &[Wanted<'_>],
) -> Result<Vec<usize>, AllocError>
    ensures { IfOk result
        (λ v. v.items ≡ filter (λ c. wanted_at groups.now wanted.now (get cells.now c)) candidates.now) }
{
    let mut kept = Vec::with_capacity(alloc, candidates.len())?;
    for key in candidates {
        if is_touched(cells, groups, *key, wanted) {
            kept.push(*key)?;
        }
    }
    Ok(kept)
}
