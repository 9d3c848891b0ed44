//! Texts that are compared as JSON.

ghost use Rattle.std.specs.Prelude.{◌≡◌, IfOk, map, option_map, true, false};
ghost use Rattle.serde_json.specs.View.{view};
ghost use Rattle.ent_json.specs.Line.{data_of};
ghost use Rattle.script_matching.specs.Matching.{both_fit, is_part, is_same};
ghost use Rattle.script_matching.specs.Places.{places_in};

use crate::fits::fits;
use crate::likely::room_for;
use crate::placing::push_places;
use serde_json::Value;
use std::alloc::{AllocError, Global};
use std::str;

/// The JSON value that a text is, or nothing where it is none.
fn value_of(alloc: Global, text: &[u8]) -> Result<Option<Value>, AllocError>
    ensures { IfOk result (λ o. option_map view o ≡ data_of text.now) }
{
    let Ok(text) = str::from_utf8(text) else {
        return Ok(None);
    };
    match Value::from_str(alloc, text) {
        Ok(value) => Ok(Some(value)),
        Err(e) if e.is_memory() => Err(AllocError),
        Err(_) => Ok(None),
    }
}

/// A list of a text has a member for that many of its bytes at most, of those in which many are looked for.
const BYTES_A_MEMBER: usize = 64;

/// Whether both texts are JSON, and the second is what is expected: the same where the whole is wanted, and else one of
/// which the first is a part.
fn both_fit(alloc: Global, whole: bool, expected: &[u8], text: &[u8]) -> Result<bool, AllocError>
    ensures { IfOk result (λ fit. fit ≡ both_fit whole (data_of expected.now) (data_of text.now)) }
{
    let Some(expected) = value_of(alloc, expected)? else {
        return Ok(false);
    };
    let Some(value) = value_of(alloc, text)? else {
        return Ok(false);
    };
    let mut room = room_for(alloc, text.len() / BYTES_A_MEMBER)?;
    Ok(fits(whole, &expected, &value, &mut room))
}

/// Whether both texts are JSON with the same data: objects with the same keys and the same at each, in whatever order,
/// lists with the same members in the same order, equal texts, and equal numbers, of which a whole one is never one with
/// a fraction. Of a key that comes twice the last value counts.
///
/// # Errors
///
/// `AllocError` if memory runs out.
///
/// Its contract is an equation but for memory.
pub fn is_same(alloc: Global, expected: &[u8], text: &[u8]) -> Result<bool, AllocError>
    ensures { IfOk result (λ same. same ≡ is_same expected.now text.now) }
{
    both_fit(alloc, true, expected, text)
}

/// Whether both texts are JSON, and the first is a part of the second: of an object a part has some of its keys, with a
/// part of what stands there, and of a list it is a list whose members are each a part of one of its members. Of
/// anything else a part is the same.
///
/// # Errors
///
/// `AllocError` if memory runs out.
///
/// Its contract is an equation but for memory.
pub fn is_part(alloc: Global, expected: &[u8], text: &[u8]) -> Result<bool, AllocError>
    ensures { IfOk result (λ part. part ≡ is_part expected.now text.now) }
{
    both_fit(alloc, false, expected, text)
}

/// The places, as JSON pointers (RFC 6901), at which a text isn't what is expected: as [`is_same`] has it where the whole
/// is wanted, and else as [`is_part`] does. Of a list that is a part, a place is that of a member which is expected, by its
/// number there. None where one of the texts isn't JSON.
///
/// # Errors
///
/// `AllocError` if memory runs out.
///
/// Its contract is an equation but for memory.
pub fn places(
    alloc: Global,
    whole: bool,
    expected: &[u8],
    text: &[u8],
) -> Result<Vec<Vec<u8>>, AllocError>
    ensures { IfOk result (λ v. map (λ p. p.items) v.items ≡ places_in whole expected.now text.now) }
{
    let mut found = Vec::new(alloc);
    let Some(expected) = value_of(alloc, expected)? else {
        return Ok(found);
    };
    let Some(value) = value_of(alloc, text)? else {
        return Ok(found);
    };
    push_places(alloc, whole, &[], &expected, &value, &mut found)?;
    Ok(found)
}
