//! The places at which JSON isn't what is expected, and what is told of each.

ghost use Rattle.std.specs.Prelude.{◌≡◌, ◌++◌, ◌∷◌, [], IfOk, OnOk, decimal, drop, is_some, map, option_map, true, unwrap_or};
ghost use Rattle.std.specs.List.{flat_map};
ghost use Rattle.serde_json.specs.Data.{no_items};
ghost use Rattle.serde_json.specs.Find.{get, get_member};
ghost use Rattle.serde_json.specs.View.{items_view, members_view, view};
ghost use Rattle.script_matching.specs.Places.{below, escaped_byte, item_places, list_places, member_places, missing};
ghost use Rattle.script_matching.specs.Places.{places, unexpected, unexpected_if};
ghost use Rattle.script_matching.specs.Told.{nothing};

use crate::fits::{fits, is_among};
use crate::likely::{keep_all, number_of, room_for};
use crate::told::{tell_another, tell_needless, tell_nothing, tell_unlike};
use itoa::Buffer;
use serde_json::{Map, Value};
use std::alloc::{AllocError, Global};

/// Puts a byte of a key behind a pointer.
fn push_escaped_byte(byte: u8, place: &mut Vec<u8>) -> Result<(), AllocError>
    ensures { OnOk result (place.new.items ≡ place.old.items ++ escaped_byte byte) }
{
    match byte {
        b'~' => place.extend_from_slice(b"~0"),
        b'/' => place.extend_from_slice(b"~1"),
        _ => place.extend_from_slice(&[byte]),
    }
}

/// Puts a key behind a pointer.
fn push_escaped(key: &[u8], place: &mut Vec<u8>) -> Result<(), AllocError>
    ensures { OnOk result (place.new.items ≡ place.old.items ++ flat_map escaped_byte key.now) }
{
    for &byte in key {
        push_escaped_byte(byte, place)?;
    }
    Ok(())
}

/// The place of a key below a place.
fn below(alloc: Global, place: &[u8], key: &[u8]) -> Result<Vec<u8>, AllocError>
    ensures { IfOk result (λ v. v.items ≡ below place.now key.now) }
{
    let mut inner = Vec::from_slice(alloc, place)?;
    inner.extend_from_slice(b"/")?;
    push_escaped(key, &mut inner)?;
    Ok(inner)
}

/// The place of a list's member of that number below a place.
fn below_at(alloc: Global, place: &[u8], number: usize) -> Result<Vec<u8>, AllocError>
    ensures { IfOk result (λ v. v.items ≡ below place.now (decimal number)) }
{
    let mut buffer = Buffer::new();
    below(alloc, place, buffer.format(number).as_bytes())
}

/// What stands at a key.
fn member<'m>(members: &'m Map<String, Value>, key: &str) -> Option<&'m Value>
    ensures { option_map (λ v. view v.now) result ≡ get_member key.now (members_view members.now.entries) }
{
    members.get(key)
}

/// Whether there is a member of that key.
fn has_key(members: &Map<String, Value>, key: &str) -> bool
    ensures { result ≡ is_some (get_member key.now (members_view members.now.entries)) }
{
    match member(members, key) {
        Some(_) => true,
        None => false,
    }
}

/// Puts the places of members whose keys aren't expected behind others.
fn push_unexpected(
    alloc: Global,
    place: &[u8],
    expected: &Map<String, Value>,
    members: &Map<String, Value>,
    told: &mut Vec<Vec<u8>>,
) -> Result<(), AllocError>
    ensures { OnOk result (map (λ v. v.items) told.new.items ≡ map (λ v. v.items) told.old.items
        ++ unexpected place.now (members_view expected.now.entries) (members_view members.now.entries)) }
{
    for (key, member) in members.iter() {
        let inner = below(alloc, place, key.as_bytes())?;
        let is_expected = has_key(expected, key.as_str());
        tell_needless(alloc, is_expected, inner.as_slice(), member, told)?;
    }
    Ok(())
}

/// Puts the places of the members that are expected behind others, of which none of a list's has any as a part, where
/// these places of its members are kept.
fn push_unlike(
    alloc: Global,
    place: &[u8],
    items: &[Value],
    others: &[Value],
    places: &[usize],
    told: &mut Vec<Vec<u8>>,
) -> Result<(), AllocError>
    ensures { OnOk result (map (λ v. v.items) told.new.items ≡ map (λ v. v.items) told.old.items
        ++ missing 0 place.now (items_view items.now) (items_view others.now)) }
{
    for i in 0..items.len() {
        let inner = below_at(alloc, place, i)?;
        let item = &items[i];
        let stands = is_among(item, others, places, number_of(items, item));
        tell_unlike(alloc, stands, inner.as_slice(), item, told)?;
    }
    Ok(())
}

/// Puts the places of the members that are expected behind others, of which none of a list's has any as a part.
fn push_missing(
    alloc: Global,
    place: &[u8],
    items: &[Value],
    others: &[Value],
    told: &mut Vec<Vec<u8>>,
) -> Result<(), AllocError>
    ensures { OnOk result (map (λ v. v.items) told.new.items ≡ map (λ v. v.items) told.old.items
        ++ missing 0 place.now (items_view items.now) (items_view others.now)) }
{
    let mut room = room_for(alloc, others.len())?;
    let places = keep_all(items, others, &mut room);
    push_unlike(alloc, place, items, others, places, told)
}

/// Puts the place of the first member of a list past so many behind others, if there is one.
fn push_further(
    alloc: Global,
    place: &[u8],
    count: usize,
    items: &[Value],
    told: &mut Vec<Vec<u8>>,
) -> Result<(), AllocError>
    ensures { OnOk result (map (λ v. v.items) told.new.items ≡ map (λ v. v.items) told.old.items
        ++ item_places count place.now no_items (items_view (drop count items.now))) }
{
    if count < items.len() {
        let inner = below_at(alloc, place, count)?;
        return tell_needless(alloc, false, inner.as_slice(), &items[count], told);
    }
    Ok(())
}

/// Puts the places below a place behind others, at which a value isn't what is expected.
#[cycle(places)]
pub(crate) fn push_places(
    alloc: Global,
    whole: bool,
    place: &[u8],
    expected: &Value,
    value: &Value,
    told: &mut Vec<Vec<u8>>,
) -> Result<(), AllocError>
    ensures { OnOk result (map (λ v. v.items) told.new.items ≡ map (λ v. v.items) told.old.items
        ++ places whole place.now (view expected.now) (view value.now)) }
{
    match expected {
        Value::Array(items) => match value.as_array() {
            Some(others) => push_list(
                alloc,
                whole,
                place,
                items.as_slice(),
                others.as_slice(),
                told,
            ),
            None => tell_another(alloc, false, place, expected, value, told),
        },
        Value::Object(members) => match value.as_object() {
            Some(others) => push_object(alloc, whole, place, members, others, value, told),
            None => tell_another(alloc, false, place, expected, value, told),
        },
        Value::Null | Value::Bool(_) | Value::Number(_) | Value::String(_) => {
            let stands = fits(whole, expected, value, &mut []);
            tell_another(alloc, stands, place, expected, value, told)
        }
    }
}

/// Puts the places of a list behind others, at which it isn't what is expected.
#[cycle(places)]
fn push_list(
    alloc: Global,
    whole: bool,
    place: &[u8],
    items: &[Value],
    others: &[Value],
    told: &mut Vec<Vec<u8>>,
) -> Result<(), AllocError>
    ensures { OnOk result (map (λ v. v.items) told.new.items ≡ map (λ v. v.items) told.old.items
        ++ list_places whole place.now (items_view items.now) (items_view others.now)) }
{
    if !whole {
        return push_missing(alloc, place, items, others, told);
    }
    push_items(alloc, place, items, others, told)
}

/// Puts the places behind others at which the members of a list aren't those that are expected.
#[cycle(places)]
fn push_items(
    alloc: Global,
    place: &[u8],
    items: &[Value],
    others: &[Value],
    told: &mut Vec<Vec<u8>>,
) -> Result<(), AllocError>
    ensures { OnOk result (map (λ v. v.items) told.new.items ≡ map (λ v. v.items) told.old.items
        ++ item_places 0 place.now (items_view items.now) (items_view others.now)) }
{
    for i in 0..items.len() {
        let inner = below_at(alloc, place, i)?;
        let item = &items[i];
        if i >= others.len() {
            return tell_nothing(alloc, inner.as_slice(), item, told);
        }
        push_places(alloc, true, inner.as_slice(), item, &others[i], told)?;
    }
    push_further(alloc, place, items.len(), others, told)
}

/// Puts the places of an object behind others, at which it isn't what is expected.
#[cycle(places)]
fn push_object(
    alloc: Global,
    whole: bool,
    place: &[u8],
    members: &Map<String, Value>,
    others: &Map<String, Value>,
    value: &Value,
    told: &mut Vec<Vec<u8>>,
) -> Result<(), AllocError>
    ensures { OnOk result (map (λ v. v.items) told.new.items ≡ map (λ v. v.items) told.old.items
        ++ (member_places whole place.now (members_view members.now.entries) (view value.now)
        ++ unexpected_if whole place.now (members_view members.now.entries) (members_view others.now.entries))) }
{
    push_members(alloc, whole, place, members, value, told)?;
    if whole {
        return push_unexpected(alloc, place, members, others, told);
    }
    Ok(())
}

/// Puts the places behind others at which the members of an object aren't those that are expected.
#[cycle(places)]
fn push_members(
    alloc: Global,
    whole: bool,
    place: &[u8],
    members: &Map<String, Value>,
    value: &Value,
    told: &mut Vec<Vec<u8>>,
) -> Result<(), AllocError>
    ensures { OnOk result (map (λ v. v.items) told.new.items ≡ map (λ v. v.items) told.old.items
        ++ member_places whole place.now (members_view members.now.entries) (view value.now)) }
{
    for (key, member) in members.iter() {
        push_member(alloc, whole, place, key.as_str(), member, value, told)?;
    }
    Ok(())
}

/// Puts the places behind others at which what stands at a key of an object isn't what is expected.
#[cycle(places)]
fn push_member(
    alloc: Global,
    whole: bool,
    place: &[u8],
    key: &str,
    expected: &Value,
    value: &Value,
    told: &mut Vec<Vec<u8>>,
) -> Result<(), AllocError>
    ensures { OnOk result (map (λ v. v.items) told.new.items ≡ map (λ v. v.items) told.old.items
        ++ unwrap_or (option_map (places whole (below place.now key.now) (view expected.now)) (get key.now (view value.now)))
        (nothing (below place.now key.now) (view expected.now) ∷ [])) }
{
    let inner = below(alloc, place, key.as_bytes())?;
    match value.get(key) {
        Some(member) => push_places(alloc, whole, inner.as_slice(), expected, member, told),
        None => tell_nothing(alloc, inner.as_slice(), expected, told),
    }
}
