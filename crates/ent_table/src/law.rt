//! A law of the lists.

ghost use Rattle.ent_table.specs.Doubles.{NoNameIsTwice};

/// Law: no list has a name twice, neither at the start nor after any accepted edit. So the number of changes that an
/// edit is told by counts each request once.
pub fn no_name_is_twice()
    ensures { NoNameIsTwice }
{}
