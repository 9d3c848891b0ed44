//! What is kept of a cell.

use ent_eval::{Answer, Who};
use ent_values::Shared;

/// An answer, whether a part of its evaluation failed by itself, and the group of the cells for whose answers the same
/// is asked. Equal answers are shared between cells.
#[derive(Drop)]
pub(crate) struct Grouped {
    pub(crate) answer: Shared<Answer>,
    pub(crate) failed: bool,
    pub(crate) group: u32,
}

/// A cell: its request, what that is answered, and what it is to be answered next, if an edit has that ready.
#[derive(Drop)]
pub(crate) struct Cell {
    pub(crate) who: Shared<Who>,
    pub(crate) said: Grouped,
    pub(crate) next: Option<Grouped>,
}
