//! The answers to one action and one resource, person by person.

ghost use Rattle.std.specs.Prelude.{◌≡◌, ◌+◌, drop};
ghost use Rattle.std.specs.Iterator.{YieldsFirstBy, item_count};
ghost use Rattle.ent_cells.specs.Cell.{answers_in};
ghost use Rattle.ent_table.specs.Names.{texts};
ghost use Rattle.ent_table.specs.Parts.{answer_of, column, column_left};

use ent_cells::Live;
use ent_eval::{Answer, Evaluates};
use std::cmp::min;

/// The people in list order, each with the answer to the person's request of one action and one resource.
#[derive(Drop)]
pub struct Column<'a, E: Evaluates> {
    // The people that are left.
    people: &'a [String],
    // All answers, the place of the next one, and how many places the next person's is behind it.
    answers: &'a Live<E>,
    place: usize,
    stride: usize,
}

impl<'a, E: Evaluates> Column<'a, E> {
    /// The answer at a place for the first person, and a stride further for each of the others.
    pub(crate) fn new(
        people: &'a [String],
        answers: &'a Live<E>,
        place: usize,
        stride: usize,
    ) -> Column<'a, E>
        ensures { column_left result ≡ column stride (texts people.now) (drop place (answers_in answers.now.kept)) }
    {
        Column {
            people,
            answers,
            place,
            stride,
        }
    }

    /// The place of the next person's answer, or one behind all answers.
    fn next_place(&self) -> usize
        ensures { drop result (answers_in self.now.answers.now.kept)
            ≡ drop (self.now.place + self.now.stride) (answers_in self.now.answers.now.kept) }
    {
        min(self.place.saturating_add(self.stride), self.answers.len())
    }
}

impl<'a, E: Evaluates> Iterator for Column<'a, E> {
    type Item = (&'a str, &'a Answer);

    ghost next_gives = { YieldsFirstBy answer_of column_left };

    ghost remaining = { item_count column_left };

    fn next(&mut self) -> Option<(&'a str, &'a Answer)> {
        let (person, people) = self.people.split_first()?;
        let (answer, _) = self.answers.next_from(self.place)?;
        self.place = self.next_place();
        self.people = people;
        Some((person.as_str(), answer))
    }
}
