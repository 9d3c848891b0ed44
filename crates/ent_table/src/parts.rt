//! Parts of the table that are read by place: one person's cells, and the answers to one action and one resource.

ghost use Rattle.std.specs.Prelude.{◌≡◌};
ghost use Rattle.ent_table.specs.Left.{cells_left};
ghost use Rattle.ent_table.specs.Parts.{answers_to, cells_of, column_left};
ghost use Rattle.ent_table.specs.State.{table_of};

use crate::cells::Cells;
use crate::column::Column;
use crate::edit::List;
use crate::review::Review;
use ent_eval::Evaluates;
use std::slice;

impl<E: Evaluates> Review<E> {
    /// The cells of a person in list order of action, then resource: none where the person isn't listed. No other cell
    /// is visited.
    ///
    /// Its contract is an equation.
    pub fn cells_of(&self, person: &str) -> Cells<'_, E>
        ensures { cells_left result ≡ cells_of person.now (table_of self.now.state) }
    {
        let table = &self.parts.table;
        let names = &table.names;
        let people = names.names(List::People);
        let actions = names.names(List::Actions);
        let resources = names.names(List::Resources);
        let blocks = names.blocks(List::People);
        match names.place_in(List::People, person) {
            None => Cells::new(&[], actions, resources, &table.cells, 0),
            Some(row) => Cells::new(
                slice::from_ref(&people[row]),
                actions,
                resources,
                &table.cells,
                row * blocks.each,
            ),
        }
    }

    /// The people in list order, each with the answer to an action and a resource: none where one of these isn't
    /// listed. No other cell is visited.
    ///
    /// Its contract is an equation.
    pub fn answers_to(&self, action: &str, resource: &str) -> Column<'_, E>
        ensures { column_left result ≡ answers_to action.now resource.now (table_of self.now.state) }
    {
        let table = &self.parts.table;
        let names = &table.names;
        let columns = names.blocks(List::Actions);
        let depths = names.blocks(List::Resources);
        let Some(column) = names.place_in(List::Actions, action) else {
            return Column::new(&[], &table.cells, 0, columns.width);
        };
        let Some(depth) = names.place_in(List::Resources, resource) else {
            return Column::new(&[], &table.cells, 0, columns.width);
        };
        Column::new(
            names.names(List::People),
            &table.cells,
            column * columns.each + depth * depths.each,
            columns.width,
        )
    }
}
