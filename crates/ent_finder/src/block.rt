//! Rows that stand next to each other.

ghost use Rattle.std.specs.Prelude.{◌<◌, length};

use crate::row::Row;

/// Some rows that follow one another in the order of their keys.
#[derive(Drop)]
pub struct Block {
    pub rows: Vec<Row>,

    // It begins with a row.
    ghost filled: { 0 < length rows.items },
}
