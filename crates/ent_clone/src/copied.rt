//! Equal lists.

ghost use Rattle.std.specs.Prelude.{◌≡◌, IfOk};

use ent_values::{Items, Text};
use std::alloc::{AllocError, Global};

/// What can be copied.
pub(crate) trait Copied: Drop {
    // An equal one.
    fn copied(&self, alloc: Global) -> Result<Self, AllocError>
        ensures { IfOk result (λ copy. copy ≡ self.now) };
}

// An equal list.
pub(crate) fn copied_all<T: Copied>(alloc: Global, items: &[T]) -> Result<Items<T>, AllocError>
    ensures { IfOk result (λ copies. copies ≡ items.now) }
{
    let mut copies = Items::with_capacity(alloc, items.len())?;
    for item in items {
        copies.push(item.copied(alloc)?)?;
    }
    Ok(copies)
}

// An equal optional text.
pub(crate) fn copied_text(alloc: Global, text: &Option<Text>) -> Result<Option<Text>, AllocError>
    ensures { IfOk result (λ copy. copy ≡ text.now) }
{
    match text {
        None => Ok(None),
        Some(text) => Ok(Some(text.copy(alloc)?)),
    }
}
