//! A list of slots in the order of their keys.

ghost use Rattle.std.specs.Prelude.{◌≡◌, ◌≤◌, if◌then◌else◌, bytes_eq, false, length, not, true};
ghost use Rattle.std.specs.Prelude.{IfErr, IfOk, IfSome, None, OnErr, OnOk, Some, slice_get, slice_range};
ghost use Rattle.std.specs.Bool.{OnTrue};
ghost use Rattle.std.specs.FinMap as finmap;
ghost use Rattle.std.specs.List.{filter};
ghost use Rattle.std.specs.Option.{ForSome, option_copied};
ghost use Rattle.ent_policy.specs.Constraints.{meets};
ghost use Rattle.ent_policy.specs.Key.{key_of};
ghost use Rattle.ent_finder.specs.Entry.{AreSorted, entries_of, slots_of};
ghost use Rattle.ent_finder.specs.Finding.{is_of, most_recent};
ghost use Rattle.ent_finder.specs.proofs_only.Order.{name_cmp, name_of, name_wanted};
ghost use Rattle.ent_finder.specs.proofs_only.Places.{IsPlace, IsSeat, is_at};
ghost use Rattle.ent_finder.specs.Slots.{document_at, held, key_cmp};
ghost use Rattle.ent_finder.specs.declared.slot.DocSlot.{DocSlot};

use crate::hints::{Hints, mixed};
use crate::passing::count_passing;
use crate::slot::DocSlot;
use ent_policy::{DocKey, Document, Reference};
use std::alloc::{AllocError, Global};
use std::cmp::Ordering;
use std::mem;

/// Where the slot of a key is, or where it would go.
fn place(slots: &[DocSlot], key: &DocKey) -> Result<usize, usize>
    requires { AreSorted slots.now }
    ensures found { IfOk result (λ i. IsPlace key_cmp key.now (entries_of slots.now) i
        × (is_at key_cmp key.now (entries_of slots.now) i ≡ true)) }
    ensures absent { IfErr result (λ i. IsPlace key_cmp key.now (entries_of slots.now) i
        × (is_at key_cmp key.now (entries_of slots.now) i ≡ false)) }
{
    slots.binary_search_by(|slot| slot.key.cmp(key))
}

/// The index of the slot of a key, which is made if it isn't there.
fn make_slot(alloc: Global, slots: &mut Vec<DocSlot>, key: &DocKey) -> Result<usize, AllocError>
    requires { AreSorted slots.old.items }
    ensures seat { IfOk result (IsSeat key_cmp None key.now (entries_of slots.old.items) (entries_of slots.new.items)) }
    ensures kept { OnErr result (slots.new.items ≡ slots.old.items) }
    ensures absent { OnErr result (finmap.get (slots_of slots.old.items) key.now ≡ None) }
{
    match place(slots, key) {
        Ok(index) => Ok(index),
        Err(index) => {
            let key = key.copy(alloc)?;
            let document = None;
            slots.insert(index, DocSlot { key, document })?;
            Ok(index)
        }
    }
}

/// Exchanges what is in the slot of a key with `document`.
///
/// Its contract is an equation but for memory.
pub fn swap_document(
    alloc: Global,
    slots: &mut Vec<DocSlot>,
    key: &DocKey,
    document: &mut Option<Document>,
) -> Result<(), AllocError>
    requires sorted { AreSorted slots.old.items }
    requires key { ForSome document.old (λ d. key_of d ≡ key.now) }
    ensures sorted { AreSorted slots.new.items }
    ensures swapped { OnOk result (slots_of slots.new.items
        ≡ finmap.insert (slots_of slots.old.items) key.now document.old) }
    ensures taken { OnOk result (document.new ≡ document_at (slots_of slots.old.items) key.now) }
    ensures own { ForSome document.new (λ d. key_of d ≡ key.now) }
    ensures absent { OnErr result (finmap.get (slots_of slots.old.items) key.now ≡ None) }
    ensures kept { OnErr result (slots_of slots.new.items ≡ slots_of slots.old.items) }
    ensures stayed { OnErr result (document.new ≡ document.old) }
{
    let index = make_slot(alloc, slots, key)?;
    mem::swap(&mut slots[index].document, document);
    Ok(())
}

/// How the kind and id of a key stand to those of a reference.
fn order(key: &DocKey, reference: &Reference) -> Ordering
    ensures { result ≡ name_cmp (name_of key.now) (name_wanted reference.now) }
{
    let ids = key.id.as_str().cmp(reference.id.as_str());
    key.kind.cmp(&reference.kind).then(ids)
}

/// Where the slots of a reference's kind and id begin, and where they end.
fn bounds(slots: &[DocSlot], reference: &Reference) -> (usize, usize)
    requires { AreSorted slots.now }
    ensures ordered { result.0 ≤ result.1 }
    ensures within { result.1 ≤ length slots.now }
    ensures versions { slice_range slots.now result.0 result.1 ≡ filter (λ s. is_of reference.now s.key) slots.now }
{
    let start = slots.partition_point(|slot| order(&slot.key, reference).is_lt());
    let named = count_passing(&slots[start..], |slot| order(&slot.key, reference).is_le());
    (start, start + named)
}

/// The document of a slot, if there is one and its version meets the constraints of a reference.
fn accepted<'a>(slot: &'a DocSlot, reference: &Reference) -> Option<&'a Document>
    ensures { option_copied result
        ≡ (if meets reference.now.constraints slot.now.key.version then slot.now.document else None) }
{
    if reference.constraints.meets(&slot.key.version) {
        slot.document.as_ref()
    } else {
        None
    }
}

/// Whether a key has the kind and id of a reference.
fn is_named(key: &DocKey, reference: &Reference) -> bool
    ensures { result ≡ is_of reference.now key.now }
{
    reference.kind == key.kind && reference.id.as_str() == key.id.as_str()
}

/// Whether two texts end in different bytes, as most do that differ.
fn ends_otherwise(first: &str, second: &str) -> bool
    ensures { OnTrue result (bytes_eq first.now second.now ≡ false) }
{
    match (first.as_bytes().last(), second.as_bytes().last()) {
        (Some(first), Some(second)) => first != second,
        _ => false,
    }
}

/// Whether a key has another kind or id than a reference.
fn is_other(key: &DocKey, reference: &Reference) -> bool
    ensures { result ≡ not (is_of reference.now key.now) }
{
    ends_otherwise(key.id.as_str(), reference.id.as_str()) || !is_named(key, reference)
}

/// Whether the slot at a place, if there is one, has another kind or id than a reference.
fn is_unlike(slots: &[DocSlot], place: usize, reference: &Reference) -> bool
    ensures { OnTrue result ((s : DocSlot) → slice_get slots.now place ≡ Some s → is_of reference.now s.key ≡ false) }
{
    match slots.get(place) {
        None => true,
        Some(slot) => is_other(&slot.key, reference),
    }
}

/// The document of the last slot of the reference's kind and id, if that is the one before this place, and is accepted.
fn last_before<'a>(slots: &'a [DocSlot], end: usize, reference: &Reference) -> Option<&'a Document>
    requires { AreSorted slots.now }
    ensures { IfSome result (λ d. most_recent reference.now (held (slots_of slots.now)) ≡ Some d.now) }
{
    let slot = slots.get(end.checked_sub(1)?)?;
    if is_named(&slot.key, reference) && is_unlike(slots, end, reference) {
        accepted(slot, reference)
    } else {
        None
    }
}

/// Of the documents that the reference names, the most recent one.
///
/// Its contract is an equation.
pub fn find_reference<'a>(
    slots: &'a [DocSlot],
    hints: &Hints,
    reference: &Reference,
) -> Option<&'a Document>
    requires { AreSorted slots.now }
    ensures { option_copied result ≡ most_recent reference.now (held (slots_of slots.now)) }
{
    let number = mixed(0, reference.id.as_str());
    if let Some(document) = last_before(slots, hints.place(number), reference) {
        return Some(document);
    }
    let (start, end) = bounds(slots, reference);
    hints.keep(number, end);
    let mut versions = &slots[start..end];
    while let Some((slot, earlier)) = versions.split_last() {
        if let Some(document) = accepted(slot, reference) {
            return Some(document);
        }
        versions = earlier;
    }
    None
}
