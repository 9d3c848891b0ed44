//! The attributes of a request.

ghost use Rattle.std.specs.Prelude.{◌≡◌, codes, map};
ghost use Rattle.std.specs.List.{list_all};
ghost use Rattle.serde_json.specs.Find.{get};
ghost use Rattle.ent_polform.specs.Values.{value_in};
ghost use Rattle.ent_profile.specs.Asks.{attribute_of, attributes_of, bag_of, is_boolean, is_number, is_text, type_at};
ghost use Rattle.ent_profile.specs.Asks.{type_by_values, values_of};
ghost use Rattle.ent_profile.specs.Reading.{Reads, each};

use crate::fault::RequestFault;
use crate::form::{MOST_MEMBERS, at_most, maybe_name_at, name_in, none_or_many, one_or_many};
use ent_json::{JsonTree, flag_at, text_or_absent};
use ent_polform::read_value;
use ent_request::Attribute;
use ent_values::{Bag, DataType, Items, Text, Value as AttributeValue};
use std::alloc::Global;

/// Whether all are texts.
fn are_texts<J: JsonTree>(values: &[J]) -> bool
    ensures { result ≡ list_all (λ v. is_text (J.content v)) values.now }
{
    values.iter().all(|value| value.as_str().is_some())
}

/// Whether all are booleans.
fn are_booleans<J: JsonTree>(values: &[J]) -> bool
    ensures { result ≡ list_all (λ v. is_boolean (J.content v)) values.now }
{
    values.iter().all(|value| value.as_bool().is_some())
}

/// Whether all are numbers.
fn are_numbers<J: JsonTree>(values: &[J]) -> bool
    ensures { result ≡ list_all (λ v. is_number (J.content v)) values.now }
{
    values.iter().all(|value| value.is_number())
}

/// The type of values that name none.
#[tactic(auto, unfolding(crate::specs::Asks::type_by_values), using(crate::proofs::ReadLemmas::all_seen))]
fn type_by_values<J: JsonTree>(values: &[J]) -> Option<DataType>
    ensures { result ≡ type_by_values (map J.content values.now) }
{
    if are_texts(values) {
        return Some(DataType::Text);
    }
    if are_booleans(values) {
        return Some(DataType::Boolean);
    }
    if are_numbers(values) {
        return Some(DataType::Integer);
    }
    None
}

/// The type of an attribute's values.
fn type_at<J: JsonTree>(object: &J, values: &[J]) -> Option<DataType>
    ensures { result ≡ type_at (get (codes "DataType") (J.content object.now)) (map J.content values.now) }
{
    match object.get("DataType") {
        None => type_by_values(values),
        Some(name) => DataType::from_name(name.as_str()?),
    }
}

/// The value of that type that a JSON value spells.
fn one_value<J: JsonTree>(
    alloc: Global,
    datatype: DataType,
    json: &J,
) -> Result<AttributeValue, RequestFault>
    ensures { Reads result (value_in datatype (J.content json.now)) }
{
    Ok(read_value(alloc, datatype, json)?)
}

/// The values of that type that JSON values spell.
fn each_value<J: JsonTree>(
    alloc: Global,
    datatype: DataType,
    values: &[J],
) -> Result<Items<AttributeValue>, RequestFault>
    ensures { Reads result (each (value_in datatype) (map J.content values.now)) }
{
    let mut all = Items::with_capacity(alloc, values.len())?;
    for value in values {
        all.push(one_value(alloc, datatype, value)?)?;
    }
    Ok(all)
}

/// The bag of the values of that type that JSON values spell.
#[tactic(auto, using(crate::proofs::TypeLemmas::all_typed))]
fn bag<J: JsonTree>(alloc: Global, datatype: DataType, values: &[J]) -> Result<Bag, RequestFault>
    ensures { Reads result (values_of datatype (map J.content values.now)) }
{
    Ok(Bag::of(datatype, each_value(alloc, datatype, values)?))
}

/// The values of an attribute.
#[tactic(auto, unfolding(crate::specs::Asks::bag_of))]
fn bag_of<J: JsonTree>(alloc: Global, object: &J) -> Result<Bag, RequestFault>
    ensures { Reads result (bag_of (J.content object.now)) }
{
    let value = object.get("Value").ok_or(RequestFault::Bad)?;
    let values = at_most(MOST_MEMBERS, one_or_many(value)).ok_or(RequestFault::Bad)?;
    let datatype = type_at(object, values).ok_or(RequestFault::Bad)?;
    bag(alloc, datatype, values)
}

/// An attribute.
#[tactic(auto, unfolding(crate::specs::Asks::attribute_of))]
fn attribute<J: JsonTree>(alloc: Global, object: &J) -> Result<Attribute, RequestFault>
    ensures { Reads result (attribute_of (J.content object.now)) }
{
    let keys = [
        "AttributeId",
        "DataType",
        "IncludeInResult",
        "Issuer",
        "Value",
    ];
    if !object.has_only(&keys) {
        return Err(RequestFault::Bad);
    }
    let id = object.get("AttributeId").ok_or(RequestFault::Bad)?;
    let id = name_in(id).ok_or(RequestFault::Bad)?;
    let issuer = maybe_name_at(alloc, object, "Issuer")?;
    let included = flag_at(object, "IncludeInResult").ok_or(RequestFault::Bad)?;
    let bag = bag_of(alloc, object)?;
    Ok(Attribute {
        id: Text::from_str(alloc, id)?,
        issuer,
        bag,
        included,
    })
}

/// Attributes, one for each value.
fn each_attribute<J: JsonTree>(
    alloc: Global,
    values: &[J],
) -> Result<Items<Attribute>, RequestFault>
    ensures { Reads result (each attribute_of (map J.content values.now)) }
{
    let mut all = Items::with_capacity(alloc, values.len())?;
    for value in values {
        all.push(attribute(alloc, value)?)?;
    }
    Ok(all)
}

/// The attributes of a category.
#[tactic(auto, unfolding(crate::specs::Asks::attributes_of))]
pub(crate) fn attributes<J: JsonTree>(
    alloc: Global,
    object: &J,
) -> Result<Items<Attribute>, RequestFault>
    ensures { Reads result (attributes_of (J.content object.now)) }
{
    if !text_or_absent(object, "Id") {
        return Err(RequestFault::Bad);
    }
    let values = none_or_many(object, "Attribute");
    let values = at_most(MOST_MEMBERS, values).ok_or(RequestFault::Bad)?;
    each_attribute(alloc, values)
}
