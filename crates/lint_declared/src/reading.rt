//! The JSON of a file that declares attributes.

ghost use Rattle.std.specs.Prelude.{◌≡◌, ◌++◌, IfOk, codes, map, option_map};
ghost use Rattle.serde_json.specs.Find.{get};
ghost use Rattle.serde_json.specs.View.{items_of};
ghost use Rattle.ent_policy.specs.Names.{name_of};
ghost use Rattle.lint_declared.specs.Attributes.{always, attribute_of, attributes_from, attributes_of, behind};
ghost use Rattle.lint_declared.specs.Attributes.{issuer_of};
ghost use Rattle.lint_declared.specs.Attributes.{name_at, values_from, values_of};

use crate::always::always;
use crate::attribute::{DeclaredAttribute, owned};
use crate::fault::{AttributeFault, AttributesFault};
use ent_json::{JsonTree, text_at};
use ent_polform::read_value;
use ent_policy::is_bad_name;
use ent_values::{DataType, Items, Text, Value, ValueFault};
use std::alloc::{AllocError, Global};

/// The keys that a declaration may have.
pub const DECLARED_KEYS: [&str; 5] = ["AttributeId", "Category", "DataType", "Issuer", "Values"];

/// The text, if it has 1 to 256 bytes.
fn name_of(text: &str) -> Option<&str>
    ensures { option_map (λ s. s.now) result ≡ name_of text.now }
{
    if is_bad_name(text) { None } else { Some(text) }
}

/// The name at a key.
fn name_at<'a, J: JsonTree>(object: &'a J, key: &str) -> Option<&'a str>
    ensures { option_map (λ s. s.now) result ≡ name_at key.now (J.content object.now) }
{
    name_of(text_at(object, key)?)
}

/// The issuer, which may be absent. None where it is no name.
fn issuer<J: JsonTree>(object: &J) -> Option<Option<&str>>
    ensures { option_map (option_map (λ s. s.now)) result ≡ issuer_of (get (codes "Issuer") (J.content object.now)) }
{
    match object.get("Issuer") {
        None => Some(None),
        Some(value) => Some(Some(name_of(value.as_str()?)?)),
    }
}

/// The values of that type that JSON values spell, or the number of the first that spells none.
fn values<J: JsonTree>(
    alloc: Global,
    datatype: DataType,
    members: &[J],
) -> Result<Result<Items<Value>, AttributeFault>, AllocError>
    ensures { IfOk result (λ r. r ≡ values_from datatype 0 (items_of (map J.content members.now))) }
{
    let mut all = Items::new(alloc);
    for (number, member) in members.iter().enumerate() {
        match read_value(alloc, datatype, member) {
            Ok(value) => all.push(value)?,
            Err(ValueFault::BadValue) => return Ok(Err(AttributeFault::Value(number))),
            Err(ValueFault::Memory) => return Err(AllocError),
        }
    }
    Ok(Ok(all))
}

/// The values of that type that an attribute may have, where they are listed.
fn values_at<J: JsonTree>(
    alloc: Global,
    datatype: DataType,
    object: &J,
) -> Result<Result<Option<Items<Value>>, AttributeFault>, AllocError>
    ensures { IfOk result (λ r. r ≡ values_of datatype (get (codes "Values") (J.content object.now))) }
{
    let Some(listed) = object.get("Values") else {
        return Ok(Ok(None));
    };
    let Some(members) = listed.as_array() else {
        return Ok(Err(AttributeFault::Values));
    };
    match values(alloc, datatype, members)? {
        Ok(values) => Ok(Ok(Some(values))),
        Err(fault) => Ok(Err(fault)),
    }
}

/// The attribute that a declaration names, or what is wrong with it.
#[tactic(auto, unfolding(crate::specs::Attributes::attribute_of))]
fn attribute<J: JsonTree>(
    alloc: Global,
    object: &J,
) -> Result<Result<DeclaredAttribute, AttributeFault>, AllocError>
    ensures { IfOk result (λ r. r ≡ attribute_of (J.content object.now)) }
{
    if !object.has_only(&DECLARED_KEYS) {
        return Ok(Err(AttributeFault::Form));
    }
    let Some(category) = name_at(object, "Category") else {
        return Ok(Err(AttributeFault::Category));
    };
    let Some(id) = name_at(object, "AttributeId") else {
        return Ok(Err(AttributeFault::AttributeId));
    };
    let Some(datatype) = text_at(object, "DataType").and_then(DataType::from_name) else {
        return Ok(Err(AttributeFault::DataType));
    };
    let Some(issuer) = issuer(object) else {
        return Ok(Err(AttributeFault::Issuer));
    };
    let values = match values_at(alloc, datatype, object)? {
        Ok(values) => values,
        Err(fault) => return Ok(Err(fault)),
    };
    let issuer = owned(alloc, issuer)?;
    Ok(Ok(DeclaredAttribute {
        category: Text::from_str(alloc, category)?,
        id: Text::from_str(alloc, id)?,
        datatype,
        issuer,
        values,
    }))
}

/// The attributes that declarations name, behind those that are always declared, or the first fault.
fn attributes<J: JsonTree>(
    alloc: Global,
    declarations: &[J],
) -> Result<Result<Items<DeclaredAttribute>, AttributesFault>, AllocError>
    ensures { IfOk result (λ r. r ≡ behind always (attributes_from 0 (items_of (map J.content declarations.now)))) }
{
    let mut all = always(alloc)?;
    for (number, declaration) in declarations.iter().enumerate() {
        match attribute(alloc, declaration)? {
            Ok(attribute) => all.push(attribute)?,
            Err(fault) => return Ok(Err(AttributesFault::Member(number, fault))),
        }
    }
    Ok(Ok(all))
}

/// The attributes that a file declares: `{"Attributes": [{"Category": .., "AttributeId": .., "DataType": .., "Issuer":
/// .., "Values": [..]}, ..]}`, the keys of an attribute as in an AttributeDesignator, Issuer where its values are given
/// by one, and Values where it may have no others. Those that each request of the table has stand first: the ids of the
/// three names, and the attributes of the moment. They are always declared.
///
/// # Errors
///
/// `AllocError` if memory runs out. Inside, the first fault of the file.
///
/// Its contract is an equation but for memory.
#[tactic(auto, unfolding(crate::specs::Attributes::attributes_of))]
pub fn read_attributes<J: JsonTree>(
    alloc: Global,
    json: &J,
) -> Result<Result<Items<DeclaredAttribute>, AttributesFault>, AllocError>
    ensures { IfOk result (λ r. r ≡ attributes_of (J.content json.now)) }
{
    if !json.has_only(&["Attributes"]) {
        return Ok(Err(AttributesFault::NoList));
    }
    match json.get("Attributes").and_then(J::as_array) {
        None => Ok(Err(AttributesFault::NoList)),
        Some(declarations) => attributes(alloc, declarations),
    }
}
