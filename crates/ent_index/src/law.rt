//! Laws of the cells of keys.

ghost use Rattle.ent_index.specs.Law.{CellsReadTheirKey, CellsRise};

/// Law: the cells of a key are those that read it.
pub fn the_cells_of_a_key_read_it()
    ensures { CellsReadTheirKey }
{}

/// Law: the cells of a key rise, so each stands there once.
pub fn the_cells_of_a_key_rise()
    ensures { CellsRise }
{}
