//! The documents of a module, one after the other.

ghost use Rattle.std.specs.Prelude.{◌≡◌, ◌<◌, ◌≤◌, ◌∷◌, ◌++◌, [], IfNone, IfOk, OnOk, OnSome};
ghost use Rattle.std.specs.Prelude.{length, map, slice_get};
ghost use Rattle.std.specs.FinMap.{entries, len};
ghost use Rattle.std.specs.List.{filter_map};
ghost use Rattle.std.specs.Option.{option_copied, option_map};
ghost use Rattle.ent_finder.specs.Entry as slots;
ghost use Rattle.ent_finder.specs.Slots.{filled_entry, held};
ghost use Rattle.lint_links.specs.proofs_only.Rows.{entry_of};

use ent_finder::{DocSlot, MapDocs, PolicyFinderModule};
use ent_policy::{DocKey, Document};
use std::alloc::{AllocError, Global};

/// A document that a module holds, and its key.
#[derive(Drop)]
pub struct Held<'a> {
    pub key: &'a DocKey,
    pub document: &'a Document,
}

/// The slot at an index of a module.
fn slot_in(docs: &MapDocs, index: usize) -> Option<&DocSlot>
    ensures slot { option_map slots.entry_of (option_copied result) ≡ slice_get (entries docs.now) index }
    ensures within { OnSome result ((index < length (entries docs.now)) × (index < usize.MAX)) }
    ensures past { IfNone result (length (entries docs.now) ≤ index) }
{
    docs.slot_at(index)
}

/// Puts the document of a slot last, if there is one.
fn put<'a>(all: &mut Vec<Held<'a>>, slot: &'a DocSlot) -> Result<(), AllocError>
    ensures { OnOk result (map entry_of all.new.items
        ≡ map entry_of all.old.items ++ filter_map filled_entry (slots.entry_of slot.now ∷ [])) }
{
    if let Some(document) = &slot.document {
        let key = &slot.key;
        all.push(Held { key, document })?;
    }
    Ok(())
}

/// The documents of a module, in the order of their keys.
///
/// # Errors
///
/// `AllocError` if memory runs out.
///
/// Its contract is an equation but for memory.
pub fn held_in<'a>(alloc: Global, docs: &'a MapDocs) -> Result<Vec<Held<'a>>, AllocError>
    ensures { IfOk result (λ all. map entry_of all.items ≡ entries (held docs.now)) }
{
    let mut all = Vec::new(alloc);
    let mut index = 0;
    while let Some(slot) = slot_in(docs, index) {
        index += 1;
        put(&mut all, slot)?;
    }
    Ok(all)
}
