//! The cells of a table in list order.

ghost use Rattle.std.specs.Prelude.{◌≡◌, drop};
ghost use Rattle.std.specs.Iterator.{YieldsFirstBy, item_count};
ghost use Rattle.std.specs.List.{zip};
ghost use Rattle.ent_cells.specs.Cell.{answers_in};
ghost use Rattle.ent_table.specs.Left.{answers_left, cell_of, cells_left};
ghost use Rattle.ent_table.specs.proofs_only.Left.{HasTurned, HasTurnedAction};
ghost use Rattle.ent_table.specs.Names.{all_triples, texts};

use ent_cells::Live;
use ent_eval::{Answer, Evaluates};

/// The listed requests with their answers: person, action, resource and answer, people outermost, then actions, then
/// resources.
#[derive(Drop)]
pub struct Cells<'a, E: Evaluates> {
    // What is left of the first person and its first action, and all lists for those that follow.
    people: &'a [String],
    actions: &'a [String],
    resources: &'a [String],
    all_actions: &'a [String],
    all_resources: &'a [String],
    // The answers, and the place of the next one.
    answers: &'a Live<E>,
    place: usize,
}

impl<'a, E: Evaluates> Cells<'a, E> {
    /// The requests of these names, with the answers from a place on.
    pub(crate) fn new(
        people: &'a [String],
        actions: &'a [String],
        resources: &'a [String],
        answers: &'a Live<E>,
        place: usize,
    ) -> Cells<'a, E>
        ensures { cells_left result
            ≡ zip (all_triples (texts people.now) (texts actions.now) (texts resources.now))
            (drop place (answers_in answers.now.kept)) }
    {
        Cells {
            people,
            actions,
            resources,
            all_actions: actions,
            all_resources: resources,
            answers,
            place,
        }
    }
}

impl<'a, E: Evaluates> Cells<'a, E> {
    /// Turns to the next action, where no resource is left of this one.
    fn next_action(&mut self)
        ensures same { cells_left self.new ≡ cells_left self.old }
        ensures answers { answers_left self.new ≡ answers_left self.old }
        ensures turned { HasTurnedAction self.new }
    {
        if !self.resources.is_empty() {
            return;
        }
        if let Some((_, actions)) = self.actions.split_first() {
            self.actions = actions;
            self.resources = self.all_resources;
        }
    }

    /// Turns to the next person, where no action is left of this one.
    fn next_person(&mut self)
        requires { HasTurnedAction self.old }
        ensures same { cells_left self.new ≡ cells_left self.old }
        ensures answers { answers_left self.new ≡ answers_left self.old }
        ensures turned { HasTurned self.new }
    {
        if !self.actions.is_empty() {
            return;
        }
        if let Some((_, people)) = self.people.split_first() {
            self.people = people;
            self.actions = self.all_actions;
            self.resources = self.all_resources;
        }
    }
}

impl<'a, E: Evaluates> Iterator for Cells<'a, E> {
    type Item = (&'a str, &'a str, &'a str, &'a Answer);

    ghost next_gives = { YieldsFirstBy cell_of cells_left };

    ghost remaining = { item_count cells_left };

    fn next(&mut self) -> Option<(&'a str, &'a str, &'a str, &'a Answer)> {
        self.next_action();
        self.next_person();
        let (answer, place) = self.answers.next_from(self.place)?;
        let person = self.people.first()?;
        let action = self.actions.first()?;
        let (resource, resources) = self.resources.split_first()?;
        self.place = place;
        self.resources = resources;
        Some((person.as_str(), action.as_str(), resource.as_str(), answer))
    }
}
