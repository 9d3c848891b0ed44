//! Steps of a change of one cell, and of the groups of cells.

ghost use Rattle.std.specs.Prelude.{◌≡◌, IfOk, IsSome, OnOk, Some, option_map, true};
ghost use Rattle.slab.specs.Slab.{Updates, get};
ghost use Rattle.ent_index.specs.Groups.{HasSameNames, IsNamed, KeepsGroups, holds, numbers_of};
ghost use Rattle.ent_cells.specs.proofs_only.Grouping.{KeepsCell, KeepsIn, KeepsOthers, replaced, unready};

use crate::cell::{Cell, Grouped};
use ent_eval::Who;
use ent_index::Groups;
use slab::Slab;
use std::alloc::AllocError;
use std::mem;

/// Puts a cell into the group of some questions, if that isn't the one in which it is, and tells its number. The cells
/// that are in groups stay there, also after a refusal.
pub(crate) fn regroup(
    groups: &mut Groups,
    key: usize,
    group: u32,
    numbers: &[u32],
    beside: u32,
) -> Result<u32, AllocError>
    requires { holds groups.old group key ≡ true }
    ensures there { IfOk result (λ g. holds groups.new g key ≡ true) }
    ensures numbers { IfOk result (λ g. numbers_of groups.new g ≡ numbers.now) }
    ensures groups { KeepsGroups groups.old groups.new }
    ensures names { HasSameNames groups.old groups.new }
{
    if groups.numbers(group) == numbers {
        return Ok(group);
    }
    groups.join(key, numbers, beside)
}

/// Puts a new cell under its names, and into the group of some questions, and tells its number. The others stay where
/// they are, also after a refusal.
pub(crate) fn enter(
    groups: &mut Groups,
    key: usize,
    who: &Who,
    numbers: &[u32],
    beside: u32,
) -> Result<u32, AllocError>
    ensures there { IfOk result (λ g. holds groups.new g key ≡ true) }
    ensures numbers { IfOk result (λ g. numbers_of groups.new g ≡ numbers.now) }
    ensures named { OnOk result (IsNamed groups.new who.now.person who.now.action who.now.resource key) }
    ensures others { KeepsOthers key groups.old groups.new }
{
    groups.enter(key, &who.person, &who.action, &who.resource)?;
    match groups.join(key, numbers, beside) {
        Ok(group) => Ok(group),
        Err(error) => {
            groups.exit(key, &who.person, &who.action, &who.resource);
            Err(error)
        }
    }
}

/// Takes a cell out of a group, unless that is the one in which it is to stay. The others stay where they are. It takes
/// no memory.
fn leave_other(groups: &mut Groups, key: usize, group: u32, kept: u32)
    ensures { KeepsIn kept key groups.old groups.new }
{
    if group == kept {
        return;
    }
    groups.leave(key, group);
}

/// Takes a cell out of the group of what is ready of it, if something is. The others stay where they are. It takes no
/// memory.
fn leave_next(groups: &mut Groups, key: usize, cell: &Cell)
    ensures { KeepsOthers key groups.old groups.new }
{
    let Some(next) = &cell.next else {
        return;
    };
    leave_other(groups, key, next.group, cell.said.group);
}

/// Takes a cell that is there no longer out of its groups, and out under its names. The others stay where they are. It
/// takes no memory.
pub(crate) fn leave(groups: &mut Groups, key: usize, cell: &Cell)
    ensures { KeepsOthers key groups.old groups.new }
{
    leave_next(groups, key, cell);
    groups.leave(key, cell.said.group);
    let who = cell.who.get();
    groups.exit(key, &who.person, &who.action, &who.resource);
}

/// Puts what is to be said next of a cell beside it.
pub(crate) fn make_ready(cells: &mut Slab<Cell>, key: usize, said: Grouped)
    requires { IsSome (get cells.old key) }
    ensures { (cell : Cell) → get cells.old key ≡ Some cell
        → Updates cells.old cells.new key (Some (record cell { next = Some said })) }
{
    match cells.get_mut(key) {
        Some(cell) => cell.next = Some(said),
        None => unreachable!(),
    }
}

/// Says of the cell under a key what is ready of it, if it is there, and takes it out of the group in which it is no
/// longer. It takes no memory.
pub(crate) fn say_next(cells: &mut Slab<Cell>, groups: &mut Groups, key: usize)
    ensures cells { Updates cells.old cells.new key (option_map replaced (get cells.old key)) }
    ensures groups { KeepsCell cells.new key groups.old groups.new }
{
    let Some(cell) = cells.get_mut(key) else {
        return;
    };
    let Some(next) = cell.next.take() else {
        return;
    };
    let old = mem::replace(&mut cell.said, next);
    leave_other(groups, key, old.group, cell.said.group);
}

/// Gives up what is ready of the cell under a key, if it is there, and takes it out of the group that this alone is
/// in. It takes no memory.
pub(crate) fn drop_next(cells: &mut Slab<Cell>, groups: &mut Groups, key: usize)
    ensures cells { Updates cells.old cells.new key (option_map unready (get cells.old key)) }
    ensures groups { KeepsCell cells.new key groups.old groups.new }
{
    let Some(cell) = cells.get_mut(key) else {
        return;
    };
    let Some(next) = cell.next.take() else {
        return;
    };
    leave_other(groups, key, next.group, cell.said.group);
}
