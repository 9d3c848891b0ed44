//! Groups of cells under numbers.

ghost use Rattle.std.specs.Prelude.{◌≡◌, ◌≢◌, ℕ, IfOk, IsSome, IsTrue, None, OnErr, OnOk, Some, false, true};
ghost use Rattle.std.specs.Bool.{OnTrue};
ghost use Rattle.slab.specs.Slab.{SameValues, Updates, get};
ghost use Rattle.ent_index.specs.Groups.{StayInBut, holds_in, is_pair, numbers_in};
ghost use Rattle.ent_index.specs.proofs_only.Grouped.{IsEmptied, IsGroupOf, Joins, Leaves};

use crate::numbers::Numbers;
use crate::roll::Roll;
use slab::Slab;
use std::alloc::{AllocError, Global};

/// The numbers of some questions, and the cells whose answers rest on these.
#[derive(Drop)]
pub(crate) struct Group {
    pub(crate) numbers: Numbers,
    pub(crate) cells: Roll,
}

/// Whether there is a group under a number, and its questions have these numbers.
pub(crate) fn is_group_of(groups: &Slab<Group>, group: u32, numbers: &[u32]) -> bool
    ensures { IsTrue result → IsGroupOf groups.now group numbers.now }
{
    match groups.get(group as usize) {
        Some(group) => group.numbers.as_slice() == numbers,
        None => false,
    }
}

/// A number that is likely one's own, made of the numbers of some questions.
pub(crate) fn mixed(numbers: &[u32]) -> u64 {
    let mut mixed: u64 = 0;
    for number in numbers {
        mixed = mixed.wrapping_mul(1_099_511_628_211) ^ u64::from(*number);
    }
    mixed
}

// Puts a cell into a group.
fn put_in(groups: &mut Slab<Group>, group: u32, cell: u32) -> Result<(), AllocError>
    requires { IsSome (get groups.old group) }
    ensures others { (g : ℕ) → g ≢ group → get groups.new g ≡ get groups.old g }
    ensures here { Joins (get groups.old group) (get groups.new group) }
    ensures there { OnOk result (holds_in groups.new group cell ≡ true) }
{
    match groups.get_mut(group as usize) {
        Some(group) => group.cells.put(cell),
        None => unreachable!(),
    }
}

/// Puts a cell into a group. The cells that are there stay, also after a refusal.
pub(crate) fn put_cell(groups: &mut Slab<Group>, group: u32, cell: u32) -> Result<(), AllocError>
    requires { IsSome (get groups.old group) }
    ensures there { OnOk result (holds_in groups.new group cell ≡ true) }
    ensures numbers { numbers_in groups.new group ≡ numbers_in groups.old group }
    ensures stay { StayInBut (λ _ _. false) groups.old groups.new }
{
    put_in(groups, group, cell)
}

// Puts a group in. After a refusal the groups are as before.
fn insert(groups: &mut Slab<Group>, group: Group) -> Result<u32, AllocError>
    ensures free { IfOk result (λ g. get groups.old g ≡ None) }
    ensures ok { IfOk result (λ g. Updates groups.old groups.new g (Some group)) }
    ensures err { OnErr result (SameValues groups.old groups.new) }
{
    groups.reserve(1)?;
    let Ok(number) = u32::try_from(groups.vacant_key()) else {
        return Err(AllocError);
    };
    groups.insert_reserved(group);
    Ok(number)
}

/// Makes a group with one cell and a copy of the numbers, and gives its number. The cells that are there stay, also
/// after a refusal.
pub(crate) fn make_group(
    alloc: Global,
    groups: &mut Slab<Group>,
    numbers: &[u32],
    cell: u32,
) -> Result<u32, AllocError>
    ensures there { IfOk result (λ g. holds_in groups.new g cell ≡ true) }
    ensures numbers { IfOk result (λ g. numbers_in groups.new g ≡ numbers.now) }
    ensures stay { StayInBut (λ _ _. false) groups.old groups.new }
{
    let mut cells = Roll::new(alloc);
    cells.put(cell)?;
    let numbers = Numbers::of(alloc, numbers)?;
    let number = insert(groups, Group { numbers, cells })?;
    Ok(number)
}

// Takes a cell out of a group, and tells whether it was the last one. It takes no memory.
fn take_one(groups: &mut Slab<Group>, group: u32, cell: u32) -> bool
    ensures others { (g : ℕ) → g ≢ group → get groups.new g ≡ get groups.old g }
    ensures here { Leaves cell (get groups.old group) (get groups.new group) }
    ensures gone { holds_in groups.new group cell ≡ false }
    ensures last { OnTrue result (IsEmptied (get groups.new group)) }
{
    match groups.get_mut(group as usize) {
        Some(group) => {
            group.cells.take(cell);
            group.cells.is_empty()
        }
        None => false,
    }
}

/// Takes a cell out of a group, and the group away, if that was its last one, and gives it. The other cells stay. It
/// takes no memory.
pub(crate) fn take_cell(groups: &mut Slab<Group>, group: u32, cell: u32) -> Option<Group>
    ensures stay { StayInBut (is_pair group cell) groups.old groups.new }
    ensures gone { holds_in groups.new group cell ≡ false }
{
    let is_last = take_one(groups, group, cell);
    if is_last {
        return groups.try_remove(group as usize);
    }
    None
}
