//! The way through a document, for what isn't declared.

ghost use Rattle.std.specs.Prelude.{◌≡◌, ◌++◌, IfOk, codes, decimal};
ghost use Rattle.serde_json.specs.Find.{get};
ghost use Rattle.lint_places.specs.Parts.{item};
ghost use Rattle.lint_places.specs.Places.{at_key, at_keys, in_list, whole};
ghost use Rattle.lint_places.specs.Told.{Scope};
ghost use Rattle.lint_declared.specs.Undeclared.{Finds, FindsHere, FindsIn, is_designator, spot};
ghost use Rattle.lint_declared.specs.proofs_only.Found.{FindsDesignator};

use crate::attribute::{DeclaredAttribute, asked, finds_one};
use crate::designator::Undeclared;
use crate::known::{DeclaredValues, with_sets};
use crate::stray::stray_in;
use ent_json::JsonTree;
use ent_values::Text;
use lint_places::Part;
use std::alloc::{AllocError, Global};

/// Whether a part is for a designator.
fn is_designator(part: Part) -> bool
    ensures { result ≡ is_designator part }
{
    matches!(part, Part::Designator)
}

/// What stands at a place, if it is a designator that isn't declared.
fn undeclared_here<J: JsonTree>(
    alloc: Global,
    pointer: &str,
    part: Part,
    json: &J,
    attributes: &[DeclaredValues<'_>],
) -> Result<Option<Undeclared>, AllocError>
    ensures { IfOk result (λ o. (scope : Scope)
        → FindsDesignator attributes.now (spot pointer.now part scope (J.content json.now)) o) }
{
    if !is_designator(part) {
        return Ok(None);
    }
    let asked = asked(alloc, json)?;
    if finds_one(attributes, &asked) {
        return Ok(None);
    }
    let pointer = Text::from_str(alloc, pointer)?;
    Ok(Some(Undeclared {
        pointer,
        asked,
        value: None,
    }))
}

/// What is wrong at a place: a designator that isn't declared, or a literal that isn't among the values of one.
fn here<J: JsonTree>(
    alloc: Global,
    pointer: &str,
    part: Part,
    json: &J,
    attributes: &[DeclaredValues<'_>],
) -> Result<Option<Undeclared>, AllocError>
    ensures { IfOk result (λ o. (scope : Scope)
        → FindsHere attributes.now (spot pointer.now part scope (J.content json.now)) o) }
{
    if let Some(found) = undeclared_here(alloc, pointer, part, json, attributes)? {
        return Ok(Some(found));
    }
    stray_in(alloc, pointer, part, json, attributes)
}

/// What is first wrong at a place or inside of it.
#[cycle(walk)]
fn in_part<J: JsonTree>(
    alloc: Global,
    pointer: &str,
    part: Part,
    json: &J,
    attributes: &[DeclaredValues<'_>],
) -> Result<Option<Undeclared>, AllocError>
    ensures { IfOk result (λ o. (scope : Scope)
        → Finds attributes.now (spot pointer.now part scope (J.content json.now)) o) }
{
    if let Some(found) = here(alloc, pointer, part, json, attributes)? {
        return Ok(Some(found));
    }
    if let Some(inner) = at_keys(alloc, pointer, part, json, attributes)? {
        return Ok(Some(inner));
    }
    in_list(alloc, pointer, part, json, attributes)
}

/// The first one at the keys of an object.
#[cycle(walk)]
fn at_keys<J: JsonTree>(
    alloc: Global,
    pointer: &str,
    part: Part,
    json: &J,
    attributes: &[DeclaredValues<'_>],
) -> Result<Option<Undeclared>, AllocError>
    ensures { IfOk result (λ o. (scope : Scope)
        → FindsIn attributes.now (at_keys (spot pointer.now part scope (J.content json.now))) o) }
{
    for row in part.rows() {
        if let Some(found) = at_key(alloc, pointer, *row, part, json, attributes)? {
            return Ok(Some(found));
        }
    }
    Ok(None)
}

/// The first one at a key of an object.
#[cycle(walk)]
fn at_key<J: JsonTree>(
    alloc: Global,
    pointer: &str,
    row: (&str, Part),
    part: Part,
    json: &J,
    attributes: &[DeclaredValues<'_>],
) -> Result<Option<Undeclared>, AllocError>
    ensures { IfOk result (λ o. (scope : Scope) → FindsIn attributes.now
        (at_key (spot pointer.now part scope (J.content json.now)) (row.entry.0.now, row.entry.1)
        (get row.entry.0.now (J.content json.now))) o) }
{
    let key = row.0;
    match json.get(key) {
        None => Ok(None),
        Some(value) => {
            let inner = format!(in alloc; "{pointer}/{key}")?;
            in_part(alloc, inner.as_str(), row.1, value, attributes)
        }
    }
}

/// The first one in a list.
#[cycle(walk)]
fn in_list<J: JsonTree>(
    alloc: Global,
    pointer: &str,
    part: Part,
    json: &J,
    attributes: &[DeclaredValues<'_>],
) -> Result<Option<Undeclared>, AllocError>
    ensures { IfOk result (λ o. (scope : Scope) → FindsIn attributes.now
        (in_list (spot pointer.now part scope (J.content json.now)) (item part)) o) }
{
    let Some(item) = part.item() else {
        return Ok(None);
    };
    let Some(members) = json.as_array() else {
        return Ok(None);
    };
    for (number, member) in members.iter().enumerate() {
        if let Some(found) = at_number(alloc, pointer, number, item, member, attributes)? {
            return Ok(Some(found));
        }
    }
    Ok(None)
}

/// The first one at a member of a list.
#[cycle(walk)]
fn at_number<J: JsonTree>(
    alloc: Global,
    pointer: &str,
    number: usize,
    part: Part,
    json: &J,
    attributes: &[DeclaredValues<'_>],
) -> Result<Option<Undeclared>, AllocError>
    ensures { IfOk result (λ o. (scope : Scope) → Finds attributes.now
        (spot (pointer.now ++ codes "/" ++ decimal number) part scope (J.content json.now)) o) }
{
    let inner = format!(in alloc; "{pointer}/{number}")?;
    in_part(alloc, inner.as_str(), part, json, attributes)
}

/// What is first wrong with a document by attributes with their sets.
fn undeclared_in<J: JsonTree>(
    alloc: Global,
    json: &J,
    attributes: &[DeclaredValues<'_>],
) -> Result<Option<Undeclared>, AllocError>
    ensures { IfOk result (λ o. Finds attributes.now (whole (J.content json.now)) o) }
{
    in_part(alloc, "", Part::Document, json, attributes)
}

/// What is first wrong with a document by the attributes: a designator that asks for values of none of them, or a
/// literal with which one is compared for whose attribute values are listed, and not this one. Parts are gone through
/// as docs/POLICIES.md has them, in the order of its sections, and lists in theirs; a part before those inside of it.
///
/// # Errors
///
/// `AllocError` if memory runs out.
///
/// Its contract leaves open: which is told, where several designators or literals would be.
pub fn undeclared<J: JsonTree>(
    alloc: Global,
    json: &J,
    attributes: &[DeclaredAttribute],
) -> Result<Option<Undeclared>, AllocError>
    ensures { IfOk result (λ o. Finds attributes.now (whole (J.content json.now)) o) }
{
    let known = with_sets(alloc, attributes)?;
    undeclared_in(alloc, json, known.as_slice())
}
