//! What is asked: what is wrong at a place of a document.

use lint_places::Part;
use std::alloc::Global;

/// A place at which a document has a fault.
#[derive(Drop)]
pub(crate) struct FaultPlace<'a, J> {
    pub(crate) alloc: Global,
    /// What stands there is for this.
    pub(crate) part: Part,
    /// The key at which it stands, or its number in a list.
    pub(crate) key: &'a str,
    pub(crate) json: &'a J,
    /// The variable definitions of the policy around it.
    pub(crate) definitions: &'a [J],
    /// The text of the document from there on.
    pub(crate) text: &'a [u8],
    /// That text from the list on of which it is a member, where it is a variable definition.
    pub(crate) list: &'a [u8],
}

/// What is wrong there.
#[derive(Drop)]
pub(crate) struct FoundFault<'a> {
    pub(crate) sentence: String,
    /// The text of the document from what is wrong on.
    pub(crate) text: &'a [u8],
}

/// It is wrong where it was asked.
pub(crate) fn here<'a, J>(asked: &FaultPlace<'a, J>, sentence: String) -> FoundFault<'a> {
    FoundFault {
        sentence,
        text: asked.text,
    }
}
