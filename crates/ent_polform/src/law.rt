//! What is written, and how it is read again.

ghost use Rattle.ent_polform.specs.Depths.{DocumentsAreShallow};
ghost use Rattle.ent_polform.specs.Nested.{ChildrenAreNested, ExpressionsAreNested};
ghost use Rattle.ent_polform.specs.ReadBack.{DocumentsReadBack, ReferencesReadBack, ValuesReadBack};

/// A law, with nothing to run: what [`crate::write_value`] writes of a value, [`crate::read_value`] reads as that
/// value, where a duration has at most 999,999,999 whole years.
pub fn values_read_back()
    ensures { ValuesReadBack }
{}

/// A law, with nothing to run: what [`crate::write_document`] writes of a document that [`ent_policy::check`] passes,
/// [`crate::read_document`] reads as that document and as no other, where no duration in it has more than 999,999,999
/// whole years.
pub fn documents_read_back()
    ensures { DocumentsReadBack }
{}

/// A law, with nothing to run: what [`crate::write_reference_text`] writes of a reference,
/// [`crate::read_reference`] reads as that reference.
pub fn references_read_back()
    ensures { ReferencesReadBack }
{}

/// A law, with nothing to run: what [`crate::write_document`] writes of a document that [`ent_policy::check`] passes
/// nests at most 100 deep, so that `serde_json`, which reads 127 levels, reads it also inside a few more.
pub fn documents_are_shallow()
    ensures { DocumentsAreShallow }
{}

/// A law, with nothing to run: an expression is read as one level whose arguments are read as expressions, and a child
/// of a set as one level whose children are read as children, however many levels there are.
pub fn levels_are_read_alike()
    ensures expressions { ExpressionsAreNested }
    ensures children { ChildrenAreNested }
{}
