//! Old answers of cells.

ghost use Rattle.std.specs.Prelude.{◌≡◌, IfOk, option_and_then};
ghost use Rattle.slab.specs.Slab.{get};
ghost use Rattle.ent_cells.specs.proofs_only.Logging.{answer_in, replaced_in};

use crate::cell::Cell;
use ent_eval::{Answer, Who};
use ent_log::OldAnswer;
use slab::Slab;
use std::alloc::AllocError;

/// The old answer of a cell, if another one is ready.
fn old_answer(cell: &Cell) -> Result<Option<OldAnswer<Who, Answer>>, AllocError>
    ensures { IfOk result (λ old. old ≡ replaced_in cell.now) }
{
    let Some(next) = &cell.next else {
        return Ok(None);
    };
    if *cell.said.answer.get() == *next.answer.get() {
        return Ok(None);
    }
    Ok(Some(OldAnswer {
        key: cell.who.copy()?,
        answer: Some(cell.said.answer.copy()?),
    }))
}

/// The old answer of the cell under a key, if another one is ready.
pub(crate) fn old_answer_under(
    cells: &Slab<Cell>,
    key: usize,
) -> Result<Option<OldAnswer<Who, Answer>>, AllocError>
    ensures { IfOk result (λ old. old ≡ option_and_then replaced_in (get cells.now key)) }
{
    match cells.get(key) {
        Some(cell) => old_answer(cell),
        None => Ok(None),
    }
}

/// The answer of a cell that is there no longer.
pub(crate) fn gone_answer(cell: Cell) -> OldAnswer<Who, Answer>
    ensures { result ≡ answer_in cell }
{
    OldAnswer {
        key: cell.who,
        answer: Some(cell.said.answer),
    }
}
