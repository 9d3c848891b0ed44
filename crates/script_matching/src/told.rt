//! What is told of a place at which JSON isn't what is expected.

ghost use Rattle.std.specs.Prelude.{◌≡◌, ◌++◌, ◌∷◌, [], IfOk, OnOk, map, take};
ghost use Rattle.std.specs.Str.Lossy.{utf8_valid_len};
ghost use Rattle.serde_json.specs.View.{items_view, members_view, view};
ghost use Rattle.serde_json.specs.Written.{has_float, items_have_float, members_have_float};
ghost use Rattle.script_matching.specs.Places.{unless};
ghost use Rattle.script_matching.specs.Told.{another, cut, needless, nothing, shown, told_of, unlike};

use serde_json::{Map, Value};
use std::alloc::{AllocError, Global};
use std::str;

/// How many bytes of a value are told.
const MOST: usize = 200;

/// Whether a value is or has a number with a fraction or an exponent.
#[cycle(floats)]
fn has_float(value: &Value) -> bool
    ensures { result ≡ has_float (view value.now) }
{
    match value {
        Value::Number(number) => number.is_f64(),
        Value::Array(items) => items_have_float(items.as_slice()),
        Value::Object(members) => members_have_float(members),
        _ => false,
    }
}

/// Whether a member of a list does.
#[cycle(floats)]
fn items_have_float(items: &[Value]) -> bool
    ensures { result ≡ items_have_float (items_view items.now) }
{
    for item in items {
        if has_float(item) {
            return true;
        }
    }
    false
}

/// Whether a member of an object does.
#[cycle(floats)]
fn members_have_float(members: &Map<String, Value>) -> bool
    ensures { result ≡ members_have_float (members_view members.now.entries) }
{
    for (_, member) in members.iter() {
        if has_float(member) {
            return true;
        }
    }
    false
}

/// As many of the first bytes as are text.
#[tactic(auto, using(crate::proofs::Lists::whole_front))]
fn front(text: &[u8]) -> &[u8]
    ensures { result.now ≡ take (utf8_valid_len text.now) text.now }
{
    match str::from_utf8(text) {
        Ok(_) => text,
        Err(e) => &text[..e.valid_up_to()],
    }
}

/// A text, cut where it is long.
fn cut(alloc: Global, text: &[u8]) -> Result<Vec<u8>, AllocError>
    ensures { IfOk result (λ v. v.items ≡ cut text.now) }
{
    if text.len() <= MOST {
        return Vec::from_slice(alloc, text);
    }
    let mut cut = Vec::from_slice(alloc, front(&text[..MOST]))?;
    cut.extend_from_slice(b"..")?;
    Ok(cut)
}

/// A value as JSON, cut where it is long.
fn shown(alloc: Global, value: &Value) -> Result<Vec<u8>, AllocError>
    ensures { IfOk result (λ v. v.items ≡ shown (view value.now)) }
{
    if has_float(value) {
        return Vec::from_slice(alloc, b"a value with a fraction");
    }
    let text = value.to_string(alloc)?;
    cut(alloc, text.as_bytes())
}

/// Puts a line on a place behind others: what is expected there, a word, and what stands there.
fn push_line(
    alloc: Global,
    place: &[u8],
    expected: &[u8],
    word: &[u8],
    found: &[u8],
    told: &mut Vec<Vec<u8>>,
) -> Result<(), AllocError>
    ensures { OnOk result (map (λ v. v.items) told.new.items ≡ map (λ v. v.items) told.old.items
        ++ told_of place.now expected.now word.now found.now ∷ []) }
{
    let mut line = Vec::from_slice(alloc, place)?;
    line.extend_from_slice(b": expected ")?;
    line.extend_from_slice(expected)?;
    line.extend_from_slice(word)?;
    line.extend_from_slice(found)?;
    told.push(line)?;
    Ok(())
}

/// Puts a line on a place behind others: what value is expected there, a word, and what stands there.
fn push_expected(
    alloc: Global,
    place: &[u8],
    expected: &Value,
    word: &[u8],
    found: &[u8],
    told: &mut Vec<Vec<u8>>,
) -> Result<(), AllocError>
    ensures { OnOk result (map (λ v. v.items) told.new.items ≡ map (λ v. v.items) told.old.items
        ++ told_of place.now (shown (view expected.now)) word.now found.now ∷ []) }
{
    let wanted = shown(alloc, expected)?;
    push_line(alloc, place, wanted.as_slice(), word, found, told)
}

/// Tells that another value stands at a place than is expected, unless the one that is expected does.
pub(crate) fn tell_another(
    alloc: Global,
    stands: bool,
    place: &[u8],
    expected: &Value,
    value: &Value,
    told: &mut Vec<Vec<u8>>,
) -> Result<(), AllocError>
    ensures { OnOk result (map (λ v. v.items) told.new.items ≡ map (λ v. v.items) told.old.items
        ++ unless stands (another place.now (view expected.now) (view value.now))) }
{
    if stands {
        return Ok(());
    }
    let replied = shown(alloc, value)?;
    push_expected(
        alloc,
        place,
        expected,
        b", replied ",
        replied.as_slice(),
        told,
    )
}

/// Tells that nothing stands at a place.
pub(crate) fn tell_nothing(
    alloc: Global,
    place: &[u8],
    expected: &Value,
    told: &mut Vec<Vec<u8>>,
) -> Result<(), AllocError>
    ensures { OnOk result (map (λ v. v.items) told.new.items ≡ map (λ v. v.items) told.old.items
        ++ nothing place.now (view expected.now) ∷ []) }
{
    push_expected(alloc, place, expected, b", nothing there", b"", told)
}

/// Tells that a value stands at a place, unless one is expected there.
pub(crate) fn tell_needless(
    alloc: Global,
    is_expected: bool,
    place: &[u8],
    value: &Value,
    told: &mut Vec<Vec<u8>>,
) -> Result<(), AllocError>
    ensures { OnOk result (map (λ v. v.items) told.new.items ≡ map (λ v. v.items) told.old.items
        ++ unless is_expected (needless place.now (view value.now))) }
{
    if is_expected {
        return Ok(());
    }
    let replied = shown(alloc, value)?;
    push_line(
        alloc,
        place,
        b"nothing",
        b", replied ",
        replied.as_slice(),
        told,
    )
}

/// Tells that no member of a list has the one that is expected as a part, unless one has.
pub(crate) fn tell_unlike(
    alloc: Global,
    is_there: bool,
    place: &[u8],
    expected: &Value,
    told: &mut Vec<Vec<u8>>,
) -> Result<(), AllocError>
    ensures { OnOk result (map (λ v. v.items) told.new.items ≡ map (λ v. v.items) told.old.items
        ++ unless is_there (unlike place.now (view expected.now))) }
{
    if is_there {
        return Ok(());
    }
    push_expected(alloc, place, expected, b", no member has it", b"", told)
}
