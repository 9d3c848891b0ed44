//! The declared attribute that is nearest to one that isn't, and the nearest value. Which one that is, is only tested.

ghost use Rattle.std.specs.Prelude.{IfOk, IfSome};
ghost use Rattle.std.specs.List.{Contains};

use crate::attribute::DeclaredAttribute;
use crate::near::{Candidates, MOST_COMPARED, few_edits};
use ent_values::{Text, Value};
use std::alloc::{AllocError, Global};

/// What stands behind the last colon of an id.
fn last_word(id: &str) -> &str {
    match id.rsplit_once(':') {
        Some((_, word)) => word,
        None => id,
    }
}

/// How far the id of an attribute is from the one that is wanted, as a whole or else by its last word.
fn id_distance(
    alloc: Global,
    wanted: &str,
    id: &str,
    left: &mut usize,
) -> Result<Option<usize>, AllocError> {
    match few_edits(alloc, wanted, id, left)? {
        Some(edits) => Ok(Some(edits)),
        None => few_edits(alloc, last_word(wanted), last_word(id), left),
    }
}

/// How far an attribute is from the one that is wanted. The same id is nearest: with the same category and type, then
/// with the same category, then with the same type. None where the ids have little in common.
fn distance(
    alloc: Global,
    wanted: &DeclaredAttribute,
    attribute: &DeclaredAttribute,
    left: &mut usize,
) -> Result<Option<usize>, AllocError> {
    let same_category = wanted.category == attribute.category;
    if wanted.id == attribute.id {
        let same_type = wanted.datatype == attribute.datatype;
        return Ok(Some(match (same_category, same_type) {
            (true, true) => 0,
            (true, false) => 1,
            (false, true) => 2,
            (false, false) => 3,
        }));
    }
    let edits = id_distance(alloc, wanted.id.as_str(), attribute.id.as_str(), left)?;
    let first = if same_category { 4 } else { 5 };
    Ok(edits.map(|edits| edits.saturating_mul(2).saturating_add(first)))
}

/// The attribute that is nearest to the one that is wanted, if one is near.
pub(crate) fn nearest<'a>(
    alloc: Global,
    wanted: &DeclaredAttribute,
    attributes: &'a [DeclaredAttribute],
) -> Result<Option<&'a DeclaredAttribute>, AllocError>
    ensures { IfOk result (λ o. IfSome o (λ a. Contains attributes.now a.now)) }
{
    let mut nearest = None;
    let mut least = usize::MAX;
    let mut left = MOST_COMPARED;
    for attribute in attributes {
        if let Some(distance) = distance(alloc, wanted, attribute, &mut left)? {
            if distance < least {
                least = distance;
                nearest = Some(attribute);
            }
        }
    }
    Ok(nearest)
}

/// Takes the texts of these values that may be near.
fn take_values(
    alloc: Global,
    values: &[Value],
    candidates: &mut Candidates<'_>,
) -> Result<(), AllocError> {
    for value in values {
        match value {
            Value::Text(text) | Value::AnyUri(text) => candidates.take(alloc, text.as_str())?,
            _ => {
                let text = value.text(alloc)?;
                candidates.take(alloc, text.as_str())?;
            }
        }
    }
    Ok(())
}

/// The text of the value that is nearest to a text, of those that are listed for what is wanted, if one is near.
pub(crate) fn nearest_value(
    alloc: Global,
    wanted: &DeclaredAttribute,
    text: &str,
    attributes: &[DeclaredAttribute],
) -> Result<Option<Text>, AllocError> {
    let mut candidates = Candidates::new(alloc, text);
    for attribute in attributes {
        if wanted.finds(attribute) {
            if let Some(values) = &attribute.values {
                take_values(alloc, values.as_slice(), &mut candidates)?;
            }
        }
    }
    candidates.nearest(alloc)
}
