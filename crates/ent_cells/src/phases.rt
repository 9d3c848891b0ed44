//! The phases of an edit: what is to be said of cells is made ready, which may be refused, and then said, which takes
//! no memory.

ghost use Rattle.std.specs.Prelude.{◌≡◌, ◌<◌, ◌≤◌, ◌+◌, ◌^◌, ℕ, IfOk, IsSome, OnErr, OnOk, length};
ghost use Rattle.std.specs.List.{All};
ghost use Rattle.slab.specs.Slab.{get};
ghost use Rattle.ent_eval.specs.Evaluator.{OnlyCounts};
ghost use Rattle.ent_eval.specs.LooksOf.{looks_of};
ghost use Rattle.ent_log.specs.Tables.{IsSameLog, room_of};
ghost use Rattle.ent_cells.specs.Count.{Counts, CountsAtMost};
ghost use Rattle.ent_cells.specs.Entries.{AreFree};
ghost use Rattle.ent_cells.specs.proofs_only.Entries.{given_up, settled};
ghost use Rattle.ent_cells.specs.Grid.{times};
ghost use Rattle.ent_cells.specs.proofs_only.Logging.{olds_in};
ghost use Rattle.ent_cells.specs.proofs_only.Phases.{IsPrepared, KeepsCells, changed_at};

use crate::store::Store;
use ent_eval::{Answer, Evaluates, Who};
use ent_log::{Log, OldAnswer};
use ent_values::Items;
use std::alloc::{AllocError, Global};
use std::slice;

/// Answers anew the cells under some keys, once each, and makes ready what that says. After a refusal some may be
/// ready.
fn prepare_all<E: Evaluates>(store: &mut Store<E>, keys: &[usize]) -> Result<(), AllocError>
    requires free { AreFree store.old.cells }
    requires there { All (λ c. IsSome (get store.old.cells c)) keys.now }
    requires once { (c : ℕ) → times c keys.now ≤ 1 }
    ensures ok { OnOk result
        (IsPrepared (looks_of store.old.evaluator.pdp) keys.now store.old.cells store.new.cells) }
    ensures err { OnErr result (KeepsCells keys.now store.old.cells store.new.cells) }
    ensures counted { OnOk result (Counts store.old.evaluator.pdp.evaluations
        store.new.evaluator.pdp.evaluations (length keys.now)) }
    ensures bound { CountsAtMost store.old.evaluator.pdp.evaluations
        store.new.evaluator.pdp.evaluations (length keys.now) }
    ensures rest { OnlyCounts store.old.evaluator.pdp store.new.evaluator.pdp }
{
    let mut beside: &[usize] = &[];
    for key in keys {
        store.prepare(*key, beside)?;
        beside = slice::from_ref(key);
    }
    Ok(())
}

/// The old answers of the cells under some keys of which another one is ready.
fn old_answers<E: Evaluates>(
    alloc: Global,
    store: &Store<E>,
    keys: &[usize],
) -> Result<Items<OldAnswer<Who, Answer>>, AllocError>
    ensures { IfOk result (λ olds. olds ≡ olds_in store.now.cells keys.now) }
{
    let mut olds = Vec::new(alloc);
    for key in keys {
        if let Some(old) = store.old_answer(*key)? {
            olds.push(old)?;
        }
    }
    Ok(Items::from_vec(olds))
}

/// Answers anew the cells under some keys, each once, makes ready what that says, and gives the old answers of those
/// that get another one. There is room in the log for these then, and for so many others. After a refusal some may be
/// ready.
pub(crate) fn prepare<E: Evaluates>(
    alloc: Global,
    store: &mut Store<E>,
    log: &mut Log<Who, Answer>,
    keys: &[usize],
    others: usize,
) -> Result<Items<OldAnswer<Who, Answer>>, AllocError>
    requires free { AreFree store.old.cells }
    requires there { All (λ c. IsSome (get store.old.cells c)) keys.now }
    requires once { (c : ℕ) → times c keys.now ≤ 1 }
    requires fits { length keys.now + others < 2 ^ 64 }
    ensures ok { OnOk result
        (IsPrepared (looks_of store.old.evaluator.pdp) keys.now store.old.cells store.new.cells) }
    ensures olds { IfOk result (λ olds. olds ≡ olds_in store.new.cells keys.now) }
    ensures room { IfOk result (λ olds. length olds + others ≤ room_of log.new) }
    ensures err { OnErr result (KeepsCells keys.now store.old.cells store.new.cells) }
    ensures log { IsSameLog log.old log.new }
    ensures grows { room_of log.old ≤ room_of log.new }
    ensures counted { OnOk result (Counts store.old.evaluator.pdp.evaluations
        store.new.evaluator.pdp.evaluations (length keys.now)) }
    ensures bound { CountsAtMost store.old.evaluator.pdp.evaluations
        store.new.evaluator.pdp.evaluations (length keys.now) }
    ensures rest { OnlyCounts store.old.evaluator.pdp store.new.evaluator.pdp }
{
    prepare_all(store, keys)?;
    let olds = old_answers(alloc, store, keys)?;
    log.reserve(olds.len() + others)?;
    Ok(olds)
}

/// Gives up what is ready of the cells under some keys. It takes no memory.
pub(crate) fn give_up_all<E: Evaluates>(store: &mut Store<E>, keys: &[usize])
    requires there { All (λ c. IsSome (get store.old.cells c)) keys.now }
    requires once { (c : ℕ) → times c keys.now ≤ 1 }
    ensures cells { (c : ℕ) → get store.new.cells c ≡ changed_at given_up keys.now c (get store.old.cells c) }
    ensures evaluator { store.new.evaluator ≡ store.old.evaluator }
{
    for key in keys {
        store.give_up(*key);
    }
}

/// Says of the cells under some keys what is ready of them. It takes no memory.
pub(crate) fn commit_all<E: Evaluates>(store: &mut Store<E>, keys: &[usize])
    requires there { All (λ c. IsSome (get store.old.cells c)) keys.now }
    requires once { (c : ℕ) → times c keys.now ≤ 1 }
    ensures cells { (c : ℕ) → get store.new.cells c ≡ changed_at settled keys.now c (get store.old.cells c) }
    ensures evaluator { store.new.evaluator ≡ store.old.evaluator }
{
    for key in keys {
        store.commit(*key);
    }
}
