//! The cells of a table in list order, each with whether a part of it failed.

ghost use Rattle.std.specs.Prelude.{◌≡◌, ◌∷◌, [], MatchOption, drop};
ghost use Rattle.std.specs.Iterator.{YieldsFirstBy, item_count};
ghost use Rattle.std.specs.List.{zip};
ghost use Rattle.ent_cells.specs.Cell.{failures_in};
ghost use Rattle.ent_table.specs.Left.{cells_left, judged_left, judged_of};

use crate::cells::Cells;
use ent_cells::Live;
use ent_eval::{Answer, Evaluates};

/// The listed requests with their answers, as [`Cells`] has them, each with whether a part of it came to Indeterminate
/// by itself.
#[derive(Drop)]
pub struct Judged<'a, E: Evaluates> {
    cells: Cells<'a, E>,
    // The marks, and the place of the next one.
    marks: &'a Live<E>,
    place: usize,
}

impl<'a, E: Evaluates> Judged<'a, E> {
    /// The cells that are left, with these marks.
    pub(crate) fn new(cells: Cells<'a, E>, marks: &'a Live<E>) -> Judged<'a, E>
        ensures { judged_left result ≡ zip (cells_left cells.entry) (drop 0 (failures_in marks.now.kept)) }
    {
        Judged {
            cells,
            marks,
            place: 0,
        }
    }

    /// The mark of the next one, and the place behind it.
    fn next_mark(&self) -> Option<(bool, usize)>
        ensures { MatchOption result
            (drop self.now.place (failures_in self.now.marks.now.kept) ≡ [])
            (λ next. drop self.now.place (failures_in self.now.marks.now.kept)
            ≡ next.0 ∷ drop next.1 (failures_in self.now.marks.now.kept)) }
    {
        if self.place >= self.marks.len() {
            return None;
        }
        let failed = self.marks.failed(self.place)?;
        Some((failed, self.place + 1))
    }
}

impl<'a, E: Evaluates> Iterator for Judged<'a, E> {
    type Item = (&'a str, &'a str, &'a str, &'a Answer, bool);

    ghost next_gives = { YieldsFirstBy judged_of judged_left };

    ghost remaining = { item_count judged_left };

    fn next(&mut self) -> Option<(&'a str, &'a str, &'a str, &'a Answer, bool)> {
        let (failed, place) = self.next_mark()?;
        let (person, action, resource, answer) = self.cells.next()?;
        self.place = place;
        Some((person, action, resource, answer, failed))
    }
}
