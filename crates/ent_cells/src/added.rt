//! Cells of requests that have none, which are put last.

ghost use Rattle.std.specs.Prelude.{◌≡◌, ◌++◌, ◌∷◌, [], OnErr, OnOk, length, map, take};
ghost use Rattle.ent_eval.specs.Evaluator.{OnlyCounts};
ghost use Rattle.ent_eval.specs.LooksOf.{looks_of};
ghost use Rattle.ent_cells.specs.Cell.{cell_of};
ghost use Rattle.ent_cells.specs.Count.{Counts, CountsAtMost};
ghost use Rattle.ent_cells.specs.Entries.{IsLive, kept_of};

use crate::store::Store;
use ent_eval::{Evaluates, Who};
use ent_values::{Items, Shared};
use std::alloc::AllocError;

/// Keys of cells that likely say the same as the next one: the last of these, and one so many places back.
fn near(keys: &[usize], apart: usize) -> [usize; 2] {
    let last = keys.last().copied().unwrap_or(0);
    let before = match keys.len().checked_sub(apart) {
        Some(place) => keys.get(place).copied().unwrap_or(0),
        None => 0,
    };
    [last, before]
}

/// Evaluates a request that has no cell, and puts its cell last. After a refusal the cells are as before.
fn push<E: Evaluates>(
    store: &mut Store<E>,
    keys: &mut Vec<usize>,
    apart: usize,
    who: Shared<Who>,
) -> Result<(), AllocError>
    requires { IsLive store.old.cells keys.old.items }
    ensures live { IsLive store.new.cells keys.new.items }
    ensures ok { OnOk result (kept_of store.new.cells keys.new.items
        ≡ kept_of store.old.cells keys.old.items ++ cell_of (looks_of store.old.evaluator.pdp) who ∷ []) }
    ensures err { OnErr result
        (kept_of store.new.cells keys.new.items ≡ kept_of store.old.cells keys.old.items) }
    ensures counted { OnOk result
        (Counts store.old.evaluator.pdp.evaluations store.new.evaluator.pdp.evaluations 1) }
    ensures bound { CountsAtMost store.old.evaluator.pdp.evaluations store.new.evaluator.pdp.evaluations 1 }
    ensures rest { OnlyCounts store.old.evaluator.pdp store.new.evaluator.pdp }
{
    keys.reserve(1)?;
    let near = near(keys, apart);
    let key = store.insert(who, &near)?;
    keys.push(key)?;
    Ok(())
}

/// Evaluates requests that have no cells, each once, and puts their cells last. After a refusal the cells of some may
/// be there.
pub(crate) fn push_all<E: Evaluates>(
    store: &mut Store<E>,
    keys: &mut Vec<usize>,
    apart: usize,
    requests: Items<Shared<Who>>,
) -> Result<(), AllocError>
    requires { IsLive store.old.cells keys.old.items }
    ensures live { IsLive store.new.cells keys.new.items }
    ensures ok { OnOk result (kept_of store.new.cells keys.new.items
        ≡ kept_of store.old.cells keys.old.items ++ map (cell_of (looks_of store.old.evaluator.pdp)) requests) }
    ensures err { OnErr result (take (length keys.old.items) (kept_of store.new.cells keys.new.items)
        ≡ kept_of store.old.cells keys.old.items) }
    ensures counted { OnOk result (Counts store.old.evaluator.pdp.evaluations
        store.new.evaluator.pdp.evaluations (length requests)) }
    ensures bound { CountsAtMost store.old.evaluator.pdp.evaluations
        store.new.evaluator.pdp.evaluations (length requests) }
    ensures rest { OnlyCounts store.old.evaluator.pdp store.new.evaluator.pdp }
{
    for who in requests.into_vec() {
        push(store, keys, apart, who)?;
    }
    Ok(())
}
