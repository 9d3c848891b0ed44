//! Where a member of a list is likely to stand: where one stands that names the same. Nothing that is found depends on
//! it.

use serde_json::{Map, Value};
use std::alloc::{AllocError, Global};

/// A list that fewer are looked for in is looked through.
const MANY: usize = 8;

/// So many places are kept for each member of a list.
const PLACES_EACH: usize = 3;

/// So many places are tried, from that of a number on.
pub(crate) const TRIED: usize = 8;

/// What a number is multiplied with for each byte that is mixed into it.
const MIXING_FACTOR: usize = 1_099_511_628_211;

/// Room for the places of so many members.
pub(crate) fn room_for(alloc: Global, members: usize) -> Result<Vec<usize>, AllocError> {
    let mut room = Vec::new(alloc);
    room.resize(members.saturating_mul(PLACES_EACH), 0)?;
    Ok(room)
}

/// A number made of another and of a text.
fn mixed(number: usize, text: &str) -> usize {
    let mut mixed = number;
    for byte in text.as_bytes() {
        mixed = (mixed ^ usize::from(*byte)).wrapping_mul(MIXING_FACTOR);
    }
    mixed
}

/// A number made of the texts that a value has at those keys of an object at which that has texts.
fn number_by(names: &Map<String, Value>, value: &Value) -> usize {
    let mut number = 0;
    for (key, name) in names.iter() {
        if !name.is_string() {
            continue;
        }
        if let Some(found) = value.get(key.as_str()) {
            number = mixed(number, found.as_str().unwrap_or(""));
        }
    }
    number
}

/// The number of a member that is looked for, by what the first of them names.
pub(crate) fn number_of(items: &[Value], item: &Value) -> usize {
    match items.first() {
        Some(Value::Object(names)) => number_by(names, item),
        _ => 0,
    }
}

/// Keeps a place under a number, unless others stand at all places that are tried. A place is kept as the one behind
/// it, and 0 is none.
fn keep(places: &mut [usize], number: usize, place: usize) {
    for step in 0..TRIED {
        let Some(index) = number.wrapping_add(step).checked_rem(places.len()) else {
            return;
        };
        if let Some(kept) = places.get_mut(index) {
            if *kept == 0 {
                *kept = place.saturating_add(1);
                return;
            }
        }
    }
}

/// The place that is kept under a number after so many steps, if there is one.
pub(crate) fn kept(places: &[usize], number: usize, step: usize) -> Option<usize> {
    let index = number.wrapping_add(step).checked_rem(places.len())?;
    places.get(index)?.checked_sub(1)
}

/// Keeps where the members of a list stand in which many are looked for, as long as there is room; gives those places.
pub(crate) fn keep_all<'p>(
    items: &[Value],
    others: &[Value],
    room: &'p mut [usize],
) -> &'p [usize] {
    if items.len() < MANY {
        return &[];
    }
    let length = room.len().min(others.len().saturating_mul(PLACES_EACH));
    let places = &mut room[..length];
    places.fill(0);
    for (place, other) in others.iter().enumerate() {
        keep(places, number_of(items, other), place);
    }
    places
}
