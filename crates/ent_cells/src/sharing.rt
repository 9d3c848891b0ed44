//! What cells have alike is kept once, with several owners.

ghost use Rattle.std.specs.Prelude.{◌≡◌, IfOk, IfSome};

use crate::cell::{Cell, Grouped};
use ent_eval::Answer;
use ent_values::Shared;
use slab::Slab;
use std::alloc::AllocError;

/// The group that the cell under the first of some keys is to be in: where it is likely that others are to be, too.
pub(crate) fn group_of_first(cells: &Slab<Cell>, beside: &[usize]) -> u32 {
    let first = beside.first().copied().unwrap_or(0);
    match said_under(cells, first) {
        (_, Some(next)) => next.group,
        (Some(said), None) => said.group,
        (None, None) => 0,
    }
}

/// The answer of a cell, if it is this one.
fn same_answer<'c>(said: Option<&'c Grouped>, answer: &Answer) -> Option<&'c Shared<Answer>>
    ensures { IfSome result (λ s. s.now ≡ answer.now) }
{
    let said = said?;
    if *said.answer.get() == *answer {
        Some(&said.answer)
    } else {
        None
    }
}

/// What the cell under a key says, and what it is to say next.
fn said_under(cells: &Slab<Cell>, key: usize) -> (Option<&Grouped>, Option<&Grouped>) {
    match cells.get(key) {
        Some(cell) => (Some(&cell.said), cell.next.as_ref()),
        None => (None, None),
    }
}

/// This answer, in the owner that has it already in the cell under a key or in one beside it, or else in its own.
pub(crate) fn shared_answer(
    cells: &Slab<Cell>,
    key: usize,
    beside: &[usize],
    answer: Shared<Answer>,
) -> Result<Shared<Answer>, AllocError>
    ensures { IfOk result (λ s. s ≡ answer) }
{
    if let Some(same) = same_answer(said_under(cells, key).0, answer.get()) {
        return same.copy();
    }
    for other in beside {
        let (said, next) = said_under(cells, *other);
        if let Some(same) = same_answer(next, answer.get()) {
            return same.copy();
        }
        if let Some(same) = same_answer(said, answer.get()) {
            return same.copy();
        }
    }
    Ok(answer)
}
