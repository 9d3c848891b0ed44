//! Laws of documents that are stored together.

ghost use Rattle.lint_links.specs.Law.{EndlessIsWithoutEnd, UnfoundNamesNone};

/// A law, with nothing to run: where a reference finds none, it names no document that is held.
pub fn unfound_references_find_none()
    ensures { UnfoundNamesNone }
{}

/// A law, with nothing to run: where a chain of as many references begins in a document as there are documents, its
/// references lead on without end.
pub fn endless_is_without_end()
    ensures { EndlessIsWithoutEnd }
{}
