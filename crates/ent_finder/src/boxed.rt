//! What is asked of one boxed module.

ghost use Rattle.std.specs.Prelude.{◌≡◌, ◌<◌, ◌≤◌, IfNone, None, OnErr, OnOk, OnSome, false, length, slice_get};
ghost use Rattle.std.specs.Bool.{OnTrue};
ghost use Rattle.std.specs.FinMap as finmap;
ghost use Rattle.std.specs.Option.{ForSome, option_copied, option_map};
ghost use Rattle.ent_policy.specs.Key.{key_of};
ghost use Rattle.ent_finder.specs.Entry.{entry_of};
ghost use Rattle.ent_finder.specs.Finding.{has_document, most_recent};
ghost use Rattle.ent_finder.specs.proofs_only.Places.{IsPlace, is_before};
ghost use Rattle.ent_finder.specs.Slots.{document_at, held, key_cmp};

use crate::module::PolicyFinderModule;
use crate::slot::DocSlot;
use ent_policy::{DocKey, Document, Reference};
use std::alloc::AllocError;

// The three calls of a module, with its clauses.

/// Its contract is an equation.
pub fn find_in<'a>(store: &'a dyn PolicyFinderModule, reference: &Reference) -> Option<&'a Document>
    ensures { option_copied result ≡ most_recent reference.now (held (slots store.now)) }
{
    store.find_reference(reference)
}

/// Its contract is an equation but for memory.
pub fn swap_in(
    store: &mut Box<dyn PolicyFinderModule>,
    key: &DocKey,
    document: &mut Option<Document>,
) -> Result<(), AllocError>
    requires { ForSome document.old (λ d. key_of d ≡ key.now) }
    ensures swapped { OnOk result (slots store.new ≡ finmap.insert (slots store.old) key.now document.old) }
    ensures taken { OnOk result (document.new ≡ document_at (slots store.old) key.now) }
    ensures own { ForSome document.new (λ d. key_of d ≡ key.now) }
    ensures absent { OnErr result (finmap.get (slots store.old) key.now ≡ None) }
    ensures kept { OnErr result (slots store.new ≡ slots store.old) }
    ensures stayed { OnErr result (document.new ≡ document.old) }
{
    store.swap_document(key, document)
}

/// Its contract is an equation.
pub fn slot_in(store: &dyn PolicyFinderModule, index: usize) -> Option<&DocSlot>
    ensures slot { option_map entry_of (option_copied result) ≡ slice_get (finmap.entries (slots store.now)) index }
    ensures indexed { finmap.len (slots store.now) ≤ usize.MAX }
    ensures within { OnSome result ((index < length (finmap.entries (slots store.now))) × (index < usize.MAX)) }
    ensures past { IfNone result (length (finmap.entries (slots store.now)) ≤ index) }
{
    store.slot_at(index)
}

/// How many documents the module holds.
///
/// Its contract is an equation.
pub fn count_in(store: &dyn PolicyFinderModule) -> usize
    ensures { result ≡ finmap.len (held (slots store.now)) }
{
    let mut count = 0;
    let mut index = 0;
    while let Some(slot) = slot_in(store, index) {
        index += 1;
        if slot.document.is_some() {
            count += 1;
        }
    }
    count
}

/// Whether the module has a slot at that index, and its key comes before this one.
fn is_before(store: &dyn PolicyFinderModule, index: usize, key: &DocKey) -> bool
    ensures before { result ≡ is_before key_cmp key.now (finmap.entries (slots store.now)) index }
    ensures indexed { OnTrue result (index < usize.MAX) }
{
    match slot_in(store, index) {
        None => false,
        Some(slot) => slot.key.cmp(key).is_lt(),
    }
}

/// An index at which no slot's key comes before this one, found by doubling.
fn reach(store: &dyn PolicyFinderModule, key: &DocKey) -> usize
    ensures { is_before key_cmp key.now (finmap.entries (slots store.now)) result ≡ false }
{
    let mut index = 1usize;
    while is_before(store, index, key) {
        index = index.saturating_mul(2);
    }
    index
}

/// How many slots have keys before this one.
fn place(store: &dyn PolicyFinderModule, key: &DocKey) -> usize
    ensures { IsPlace key_cmp key.now (finmap.entries (slots store.now)) result }
{
    let mut low = 0;
    let mut high = reach(store, key);
    while low < high {
        let middle = low + (high - low) / 2;
        if is_before(store, middle, key) {
            low = middle + 1;
        } else {
            high = middle;
        }
    }
    low
}

/// The document that the module holds under that key.
///
/// Its contract is an equation.
pub fn document_in<'a>(store: &'a dyn PolicyFinderModule, key: &DocKey) -> Option<&'a Document>
    ensures { option_copied result ≡ document_at (slots store.now) key.now }
{
    let slot = slot_in(store, place(store, key))?;
    if slot.key.cmp(key).is_eq() {
        slot.document.as_ref()
    } else {
        None
    }
}

/// Whether the module holds a document with that key.
///
/// Its contract is an equation.
pub fn holds_in(store: &dyn PolicyFinderModule, key: &DocKey) -> bool
    ensures { result ≡ has_document key.now (held (slots store.now)) }
{
    document_in(store, key).is_some()
}
