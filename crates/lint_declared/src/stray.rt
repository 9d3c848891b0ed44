//! Literals that aren't among the values which are listed for the designators with which they are compared.

ghost use Rattle.std.specs.Prelude.{◌≡◌, ◌&&◌, IfOk};
ghost use Rattle.std.specs.List.{list_any};
ghost use Rattle.ent_polform.specs.Values.{value_in};
ghost use Rattle.lint_declared.specs.Asked.{finds};
ghost use Rattle.lint_declared.specs.Compared.{designators, is_foreign, lists, lists_values, literal_as, literals};
ghost use Rattle.lint_declared.specs.proofs_only.Found.{StraysFrom, StraysIn, StraysOf};
ghost use Rattle.lint_declared.specs.proofs_only.Placed.{place_of, places_of};

use crate::attribute::{DeclaredAttribute, asked};
use crate::compared::{Placed, compared};
use crate::designator::Undeclared;
use crate::known::DeclaredValues;
use ent_json::JsonTree;
use ent_polform::read_value;
use ent_values::{DataType, Text, Value, ValueFault};
use lint_places::Part;
use std::alloc::{AllocError, Global};

/// Whether an attribute is asked for whose values are listed.
fn finds_listing(wanted: &DeclaredAttribute, attribute: &DeclaredValues<'_>) -> bool
    ensures { result ≡ (finds wanted.now attribute.now && lists_values attribute.now) }
{
    wanted.finds(attribute.attribute()) && attribute.lists_values()
}

/// Whether an attribute is asked for that lists a value.
fn finds_value(wanted: &DeclaredAttribute, attribute: &DeclaredValues<'_>, value: &Value) -> bool
    ensures { result ≡ (finds wanted.now attribute.now && lists value.now attribute.now) }
{
    wanted.finds(attribute.attribute()) && attribute.lists(value)
}

/// Whether values are listed for what is wanted.
fn is_listing(attributes: &[DeclaredValues<'_>], wanted: &DeclaredAttribute) -> bool
    ensures { result ≡ list_any (λ a. finds wanted.now a && lists_values a) attributes.now }
{
    attributes
        .iter()
        .any(|attribute| finds_listing(wanted, attribute))
}

/// Whether a value is among those that are listed for what is wanted.
fn is_listed(attributes: &[DeclaredValues<'_>], wanted: &DeclaredAttribute, value: &Value) -> bool
    ensures { result ≡ list_any (λ a. finds wanted.now a && lists value.now a) attributes.now }
{
    attributes
        .iter()
        .any(|attribute| finds_value(wanted, attribute, value))
}

/// Whether values are listed for what is wanted, and this one is none of them.
pub(crate) fn is_foreign(
    attributes: &[DeclaredValues<'_>],
    wanted: &DeclaredAttribute,
    value: &Value,
) -> bool
    ensures { result ≡ is_foreign attributes.now wanted.now value.now }
{
    is_listing(attributes, wanted) && !is_listed(attributes, wanted, value)
}

/// The value of that type that a JSON value spells, if it spells one.
pub(crate) fn value_in<J: JsonTree>(
    alloc: Global,
    datatype: DataType,
    json: &J,
) -> Result<Option<Value>, AllocError>
    ensures { IfOk result (λ o. o ≡ value_in datatype (J.content json.now)) }
{
    match read_value(alloc, datatype, json) {
        Ok(value) => Ok(Some(value)),
        Err(ValueFault::BadValue) => Ok(None),
        Err(ValueFault::Memory) => Err(AllocError),
    }
}

/// A literal, read by the type of a designator.
fn literal_as<J: JsonTree>(
    alloc: Global,
    datatype: DataType,
    literal: &J,
) -> Result<Option<Value>, AllocError>
    ensures { IfOk result (λ o. o ≡ literal_as datatype (J.content literal.now)) }
{
    match literal.get("Value") {
        None => Ok(None),
        Some(json) => value_in(alloc, datatype, json),
    }
}

/// What is told of a literal that is compared with a designator, if it is none of the values that are listed for it.
fn stray<J: JsonTree>(
    alloc: Global,
    attributes: &[DeclaredValues<'_>],
    designator: &Placed<'_, J>,
    literal: &Placed<'_, J>,
) -> Result<Option<Undeclared>, AllocError>
    ensures { IfOk result (λ o.
        StraysOf attributes.now (place_of J.content literal.now) (place_of J.content designator.now) o) }
{
    let Some(wanted) = asked(alloc, designator.json)? else {
        return Ok(None);
    };
    let Some(value) = literal_as(alloc, wanted.datatype, literal.json)? else {
        return Ok(None);
    };
    if !is_foreign(attributes, &wanted, &value) {
        return Ok(None);
    }
    Ok(Some(Undeclared {
        pointer: literal.pointer.copy(alloc)?,
        asked: Some(wanted),
        value: Some(value),
    }))
}

/// The first of these designators for which a literal is none of the values that are listed.
fn stray_of<J: JsonTree>(
    alloc: Global,
    attributes: &[DeclaredValues<'_>],
    designators: &[Placed<'_, J>],
    literal: &Placed<'_, J>,
) -> Result<Option<Undeclared>, AllocError>
    ensures { IfOk result (λ o.
        StraysFrom attributes.now (place_of J.content literal.now) (places_of J.content designators.now) o) }
{
    for designator in designators {
        if let Some(found) = stray(alloc, attributes, designator, literal)? {
            return Ok(Some(found));
        }
    }
    Ok(None)
}

/// The first of these literals that is none of the values that are listed for one of the designators.
fn first_stray<J: JsonTree>(
    alloc: Global,
    attributes: &[DeclaredValues<'_>],
    designators: &[Placed<'_, J>],
    literals: &[Placed<'_, J>],
) -> Result<Option<Undeclared>, AllocError>
    ensures { IfOk result (λ o.
        StraysIn attributes.now (places_of J.content literals.now) (places_of J.content designators.now) o) }
{
    for literal in literals {
        if let Some(found) = stray_of(alloc, attributes, designators, literal)? {
            return Ok(Some(found));
        }
    }
    Ok(None)
}

/// The first literal of a part that is none of the values that are listed for a designator with which it is compared.
pub(crate) fn stray_in<J: JsonTree>(
    alloc: Global,
    pointer: &str,
    part: Part,
    json: &J,
    attributes: &[DeclaredValues<'_>],
) -> Result<Option<Undeclared>, AllocError>
    ensures { IfOk result (λ o. StraysIn attributes.now (literals part (pointer.now, J.content json.now))
        (designators part (pointer.now, J.content json.now)) o) }
{
    let pointer = Text::from_str(alloc, pointer)?;
    let place = Placed { pointer, json };
    let designators = compared(alloc, "AttributeDesignator", part, &place)?;
    let literals = compared(alloc, "AttributeValue", part, &place)?;
    first_stray(
        alloc,
        attributes,
        designators.as_slice(),
        literals.as_slice(),
    )
}
