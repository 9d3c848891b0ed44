//! Keys in blocks of one width.

ghost use Rattle.std.specs.Prelude.{◌≡◌, ◌<◌, ◌≤◌, ◌++◌, ◌∷◌, [], None, is_some, ◌+◌, ℕ, length, take, drop};
ghost use Rattle.std.specs.Prelude.{vec_capacity, vec_len};
ghost use Rattle.std.specs.List.{filter};
ghost use Rattle.slab.specs.Slab.{Updates, get};
ghost use Rattle.ent_log.specs.Tables.{room_of};
ghost use Rattle.ent_cells.specs.Grid.{times};
ghost use Rattle.ent_cells.specs.proofs_only.Logging.{Puts, gone_in};
ghost use Rattle.ent_cells.specs.Shape.{woven, taken_out, left_of};

use crate::store::Store;
use ent_eval::{Answer, Evaluates, Who};
use ent_log::Log;
use std::cmp::min;

/// Where the cells of one name stand in list order: `each` of them one after another, in each of `count` blocks of
/// `width` cells.
#[derive(Clone, Copy)]
pub struct Blocks {
    pub count: usize,
    pub width: usize,
    pub each: usize,
}

/// Splits a slice after so many members, or at its end.
#[tactic(auto, using(std::proofs::lemmas::List::take_min, std::proofs::lemmas::List::drop_min))]
fn split(keys: &[usize], count: usize) -> (&[usize], &[usize])
    ensures front { result.0.now ≡ take count keys.now }
    ensures back { result.1.now ≡ drop count keys.now }
{
    keys.split_at(min(count, keys.len()))
}

/// Takes the cells under some keys out. It takes no memory.
fn remove_all<E: Evaluates>(store: &mut Store<E>, keys: &[usize])
    ensures cells { (q : ℕ) → get store.new.cells q ≡ left_of store.old.cells keys.now q }
    ensures evaluator { store.new.evaluator ≡ store.old.evaluator }
{
    for key in keys {
        store.remove(*key);
    }
}

/// Takes out the cells whose keys stand from place `from` on. It takes no memory.
pub(crate) fn remove_from<E: Evaluates>(store: &mut Store<E>, keys: &[usize], from: usize)
    ensures cells { (q : ℕ) → get store.new.cells q ≡ left_of store.old.cells (drop from keys.now) q }
    ensures evaluator { store.new.evaluator ≡ store.old.evaluator }
{
    let (_, gone) = split(keys, from);
    remove_all(store, gone);
}

/// Takes the cell under a key out, if there is one, and logs its answer. It takes no memory.
fn remove_one<E: Evaluates>(store: &mut Store<E>, log: &mut Log<Who, Answer>, key: usize)
    requires { 0 < room_of log.old }
    ensures cells { Updates store.old.cells store.new.cells key None }
    ensures logged { Puts (gone_in store.old.cells (key ∷ [])) log.old log.new }
    ensures evaluator { store.new.evaluator ≡ store.old.evaluator }
{
    if let Some(old) = store.remove(key) {
        log.put(old);
    }
}

/// Takes the cells under some keys out, and logs their answers. It takes no memory.
fn remove_logged<E: Evaluates>(store: &mut Store<E>, log: &mut Log<Who, Answer>, keys: &[usize])
    requires once { (c : ℕ) → times c keys.now ≤ 1 }
    requires room { length keys.now ≤ room_of log.old }
    ensures cells { (q : ℕ) → get store.new.cells q ≡ left_of store.old.cells keys.now q }
    ensures logged { Puts (gone_in store.old.cells keys.now) log.old log.new }
    ensures evaluator { store.new.evaluator ≡ store.old.evaluator }
{
    for key in keys {
        remove_one(store, log, *key);
    }
}

/// Takes out the cells of a name, which stand from place `from` on in each of the blocks, and logs their answers. It
/// takes no memory.
pub(crate) fn remove_blocks<E: Evaluates>(
    store: &mut Store<E>,
    log: &mut Log<Who, Answer>,
    keys: &[usize],
    blocks: Blocks,
    from: usize,
)
    requires once { (c : ℕ) → times c keys.now ≤ 1 }
    requires room { length keys.now ≤ room_of log.old }
    ensures cells { (q : ℕ)
        → get store.new.cells q
        ≡ left_of store.old.cells (taken_out blocks.count blocks.width from blocks.each keys.now) q }
    ensures logged { Puts (gone_in store.old.cells (taken_out blocks.count blocks.width from blocks.each keys.now))
        log.old log.new }
    ensures evaluator { store.new.evaluator ≡ store.old.evaluator }
{
    let mut rest = keys;
    for done in 0..blocks.count {
        let (block, later) = split(rest, blocks.width);
        let (_, tail) = split(block, from);
        let (gone, _) = split(tail, blocks.each);
        remove_logged(store, log, gone);
        rest = later;
    }
}

/// Puts the added keys behind the blocks of a list, `each` of them behind each block, into room that is there already.
pub(crate) fn weave(
    room: &mut Vec<usize>,
    keys: &[usize],
    added: &[usize],
    blocks: usize,
    width: usize,
    each: usize,
)
    requires empty { room.old.items ≡ [] }
    requires room { length keys.now + length added.now ≤ vec_capacity room.old }
    ensures { room.new.items ≡ woven blocks width each keys.now added.now }
{
    let mut keys_left = keys;
    let mut added_left = added;
    for done in 0..blocks {
        let (block, later) = split(keys_left, width);
        let (next, others) = split(added_left, each);
        append(room, block);
        append(room, next);
        keys_left = later;
        added_left = others;
    }
    append(room, keys_left);
    append(room, added_left);
}

/// Puts keys at the end of a list that has room for them.
fn append(room: &mut Vec<usize>, keys: &[usize])
    requires { vec_len room.old + length keys.now ≤ vec_capacity room.old }
    ensures items { room.new.items ≡ room.old.items ++ keys.now }
    ensures capacity { vec_capacity room.old ≤ vec_capacity room.new }
{
    match room.extend_from_slice(keys) {
        Ok(()) => (),
        Err(_) => unreachable!(),
    }
}

/// Whether there is a cell under a key.
fn is_present<E: Evaluates>(store: &Store<E>, key: usize) -> bool
    ensures { result ≡ is_some (get store.now.cells key) }
{
    store.under(key).is_some()
}

/// Keeps the keys that have a cell. It takes no memory.
pub(crate) fn keep_present<E: Evaluates>(keys: &mut Vec<usize>, store: &Store<E>)
    ensures { keys.new.items ≡ filter (λ q. is_some (get store.now.cells q)) keys.old.items }
{
    keys.retain(|key| is_present(store, *key));
}
