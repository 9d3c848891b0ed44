//! A module that holds its rows in memory.

ghost use Rattle.std.specs.Prelude.{◌≡◌, map};
ghost use Rattle.std.specs.FinMap as finmap;

use crate::attribute_module::AttributeFinderModule;
use crate::block::Block;
use crate::blocks;
use crate::hints::Hints;
use crate::row::{AttrKey, Row, RowKey};
use ent_values::{Bag, Items, Text, Value};
use std::alloc::{AllocError, Global};
use std::marker::Model;

/// A module that holds its rows in memory.
#[derive(Drop)]
pub struct MapRows {
    alloc: Global,
    categories: Items<Text>,
    blocks: Vec<Block>,
    count: usize,
    hints: Hints,
}

impl Model for MapRows {
    ghost use Rattle.ent_values.specs.contracts.value.Value as value;
    ghost use Rattle.ent_finder.specs.contracts.row.RowKey as key;
    ghost use Rattle.ent_finder.specs.Rows.{Source};
    ghost use Rattle.ent_finder.specs.proofs_only.Rows.{source_code};

    ghost Value = { Source };

    ghost coded = { source_code key.the_row.coded value.the_row.coded };

    ghost use Rattle.std.below.core.specs.declared.int.usize.TheConstants.{MAX};
    ghost use Rattle.std.specs.Prelude.{◌≡◌, ◌≤◌, length};
    ghost use Rattle.ent_finder.specs.Blocks.{rows_in};
    ghost use Rattle.ent_finder.specs.RowEntry.{RowsAreSorted, rows_of};

    ghost view = { λ m. record { categories = m.categories; rows = rows_of (rows_in m.blocks.items) } };

    ghost invariant = { λ m. RowsAreSorted (rows_in m.blocks.items)
        × (m.count ≡ length (rows_in m.blocks.items))
        × (m.count ≤ MAX) };
}

impl MapRows {
    /// Supports these categories, and has no rows, for which nothing is allocated.
    ///
    /// Its contract is an equation.
    pub fn new(alloc: Global, categories: Items<Text>) -> MapRows
        ensures { result ≡ record { categories = categories; rows = finmap.empty } }
    {
        MapRows {
            alloc,
            categories,
            blocks: Vec::new(alloc),
            count: 0,
            hints: Hints::new(),
        }
    }
}

impl AttributeFinderModule for MapRows {
    ghost source = { λ m. m };

    fn supports(&self, category: &str) -> bool {
        self.categories
            .as_slice()
            .iter()
            .any(|supported| supported.as_str() == category)
    }

    fn find(&self, key: &AttrKey, bag: &mut Bag) -> Result<(), AllocError> {
        *bag = blocks::values_of(self.alloc, &self.blocks, &self.hints, key)?;
        Ok(())
    }

    fn sole(&self, key: &AttrKey) -> Option<&[Value]> {
        blocks::sole(&self.blocks, &self.hints, key)
    }

    fn swap_row(&mut self, key: &RowKey, values: &mut Items<Value>) -> Result<(), AllocError> {
        blocks::swap_row(self.alloc, &mut self.blocks, &mut self.count, key, values)?;
        Ok(())
    }

    fn row_at(&self, index: usize) -> Option<&Row> {
        blocks::row_at(&self.blocks, index)
    }
}
