//! Whether a value is what is expected.

ghost use Rattle.std.specs.Prelude.{◌≡◌, bytes_eq, is_some, true, false};
ghost use Rattle.serde_json.specs.Find.{as_array, as_bool, as_number, as_object, as_str, get};
ghost use Rattle.serde_json.specs.View.{items_view, members_view, number_view, view};
ghost use Rattle.script_matching.specs.Matching.{alike, any_item, are_among, as_many, fits, holds, list_fits, same_flag};
ghost use Rattle.script_matching.specs.Matching.{same_number, stand_in};
ghost use Rattle.script_matching.specs.proofs_only.Around.{is_part_at};

use crate::likely::{TRIED, keep_all, kept, number_of};
use serde_json::{Map, Number, Value};

/// Whether two numbers are the same: equal integers, or equal floats.
fn is_same_number(first: &Number, second: &Number) -> bool
    ensures { result ≡ same_number (number_view first.now) (number_view second.now) }
{
    match (first.as_i128(), second.as_i128()) {
        (Some(n), Some(m)) => n == m,
        (None, None) => match (first.as_f64(), second.as_f64()) {
            (Some(x), Some(y)) => x == y,
            _ => false,
        },
        _ => false,
    }
}

/// Whether a value is that flag.
fn is_flag(flag: bool, value: &Value) -> bool
    ensures { result ≡ holds (same_flag flag) (as_bool (view value.now)) }
{
    match value.as_bool() {
        Some(other) => flag == other,
        None => false,
    }
}

/// Whether a value is that number.
fn is_number(number: &Number, value: &Value) -> bool
    ensures { result ≡ holds (same_number (number_view number.now)) (as_number (view value.now)) }
{
    match value.as_number() {
        Some(other) => is_same_number(number, other),
        None => false,
    }
}

/// Whether a value is that text.
fn is_text(text: &str, value: &Value) -> bool
    ensures { result ≡ holds (bytes_eq text.now) (as_str (view value.now)) }
{
    match value.as_str() {
        Some(other) => text == other,
        None => false,
    }
}

/// Whether a value is an object, with as many members as these where the whole is wanted.
fn has_as_many(whole: bool, members: &Map<String, Value>, value: &Value) -> bool
    ensures { result ≡ as_many whole (members_view members.now.entries) (as_object (view value.now)) }
{
    match value.as_object() {
        Some(others) => !whole || members.len() == others.len(),
        None => false,
    }
}

/// Whether two values have the same data, as [`is_same`](crate::is_same) says it of texts.
///
/// Its contract is an equation.
pub fn have_same_data(first: &Value, second: &Value) -> bool
    ensures { result ≡ fits true (view first.now) (view second.now) }
{
    fits(true, first, second, &mut [])
}

/// Whether a value is what is expected: the same where the whole is wanted, and else one of which it is a part. There
/// may be room for places of members.
#[cycle(fits)]
pub(crate) fn fits(whole: bool, expected: &Value, value: &Value, room: &mut [usize]) -> bool
    ensures { result ≡ fits whole (view expected.now) (view value.now) }
{
    match expected {
        Value::Null => value.is_null(),
        Value::Bool(flag) => is_flag(*flag, value),
        Value::Number(number) => is_number(number, value),
        Value::String(text) => is_text(text.as_str(), value),
        Value::Array(items) => list_fits(whole, items.as_slice(), value, room),
        Value::Object(members) => {
            has_as_many(whole, members, value) && stand_in(whole, members, value, room)
        }
    }
}

/// Whether a value is a list that is what is expected.
#[cycle(fits)]
fn list_fits(whole: bool, items: &[Value], value: &Value, room: &mut [usize]) -> bool
    ensures { result ≡ list_fits whole (items_view items.now) (as_array (view value.now)) }
{
    match value.as_array() {
        Some(others) if whole => are_alike(items, others.as_slice()),
        Some(others) => are_among(items, others.as_slice(), room),
        None => false,
    }
}

/// Whether two lists have the same members, in the same order.
#[cycle(fits)]
fn are_alike(items: &[Value], others: &[Value]) -> bool
    ensures { result ≡ alike (items_view items.now) (items_view others.now) }
{
    if items.len() != others.len() {
        return false;
    }
    for i in 0..items.len() {
        if !fits(true, &items[i], &others[i], &mut []) {
            return false;
        }
    }
    true
}

/// Whether each of the first is a part of one of the second. Each is looked for where one stands that names the same,
/// and then around the place of the one before it, since a list that is written by another one is mostly in its order.
#[cycle(fits)]
fn are_among(items: &[Value], others: &[Value], room: &mut [usize]) -> bool
    ensures { result ≡ are_among (items_view items.now) (items_view others.now) }
{
    let places = keep_all(items, others, room);
    let mut near = 0;
    for item in items {
        match place_of(item, others, places, number_of(items, item), near) {
            Some(place) => near = place,
            None => return false,
        }
    }
    true
}

/// Whether a value of that number is a part of one of these, of which places are kept.
pub(crate) fn is_among(item: &Value, others: &[Value], places: &[usize], number: usize) -> bool
    ensures { result ≡ any_item (fits false (view item.now)) (items_view others.now) }
{
    place_of(item, others, places, number, 0).is_some()
}

/// The place of one of these of which a value of that number is a part, if there is one: the places that are kept are
/// looked at first, and then those around a place.
#[cycle(fits)]
fn place_of(
    item: &Value,
    others: &[Value],
    places: &[usize],
    number: usize,
    near: usize,
) -> Option<usize>
    ensures { is_some result ≡ any_item (fits false (view item.now)) (items_view others.now) }
{
    for step in 0..TRIED {
        match kept(places, number, step) {
            Some(place) if is_part_at(item, others, place) => return Some(place),
            Some(_) => {}
            None => return place_around(item, others, near),
        }
    }
    place_around(item, others, near)
}

/// The place of one of these of which a value is a part, if there is one: those around a place are looked at first.
#[cycle(fits)]
fn place_around(item: &Value, others: &[Value], place: usize) -> Option<usize>
    ensures { is_some result ≡ any_item (fits false (view item.now)) (items_view others.now) }
{
    let near = place.min(others.len().saturating_sub(1));
    for step in 0..others.len() {
        let behind = near.saturating_add(step);
        if is_part_at(item, others, behind) {
            return Some(behind);
        }
        let before = near.saturating_sub(step);
        if is_part_at(item, others, before) {
            return Some(before);
        }
    }
    None
}

/// Whether a value is a part of the one of these at a place.
#[cycle(fits)]
fn is_part_at(item: &Value, others: &[Value], place: usize) -> bool
    ensures { result ≡ is_part_at (view item.now) others.now place }
{
    match others.get(place) {
        Some(other) => fits(false, item, other, &mut []),
        None => false,
    }
}

/// Whether at each key of the members stands what is expected there.
#[cycle(fits)]
fn stand_in(whole: bool, members: &Map<String, Value>, value: &Value, room: &mut [usize]) -> bool
    ensures { result ≡ stand_in whole (members_view members.now.entries) (view value.now) }
{
    for (key, member) in members.iter() {
        if !stands_at(whole, key.as_str(), member, value, room) {
            return false;
        }
    }
    true
}

/// Whether at a key of an object stands what is expected.
#[cycle(fits)]
fn stands_at(whole: bool, key: &str, expected: &Value, value: &Value, room: &mut [usize]) -> bool
    ensures { result ≡ holds (fits whole (view expected.now)) (get key.now (view value.now)) }
{
    match value.get(key) {
        Some(found) => fits(whole, expected, found, room),
        None => false,
    }
}
