//! Where the values of a designator come from.

ghost use Rattle.std.specs.Prelude.{◌≡◌, IfOk, IfSome, option_to_list};
ghost use Rattle.std.specs.Option.{option_copied};
ghost use Rattle.ent_values.specs.Types.{datatype_of};
ghost use Rattle.ent_values.specs.declared.datatype.DataType.TheVariants as types;
ghost use Rattle.ent_values.specs.declared.value.Value.TheVariants as values;
ghost use Rattle.ent_request.specs.Sources.{asks_for, entity_of, id_attribute, key_for, known_values, only_text};
ghost use Rattle.ent_request.specs.Sources.{designated_values, source_values, text_of};
ghost use Rattle.ent_request.specs.proofs_only.Sought.{designator_of};

use crate::answer::copied_text;
use crate::lent_bag::LentBag;
use crate::look_ups::LookUps;
use crate::own::Sought;
use crate::own_bag::{is_empty, only_own, own_bag};
use crate::request::Request;
use crate::uris::{
    ACCESS_SUBJECT, ACTION, ACTION_ID, CURRENT_DATE, CURRENT_DATE_TIME, CURRENT_TIME, ENVIRONMENT,
    RESOURCE, RESOURCE_ID, SUBJECT_ID,
};
use ent_finder::AttrKey;
use ent_policy::Designator;
use ent_values::{Bag, DataType, Text, Value};
use std::alloc::{AllocError, Global};

/// The values of a designator: the request's own, or else those of its source. They are copied only where they don't
/// lie in one place.
///
/// Its contract is an equation but for memory.
pub fn designated<'a, L: LookUps>(
    alloc: Global,
    held: &'a L,
    request: &'a Request,
    designator: &Designator,
) -> Result<LentBag<'a>, AllocError>
    ensures { IfOk result (λ b. b ≡ record {
      datatype = designator.now.datatype;
      values = designated_values (L.looks held.now) request.now designator.now;
    }) }
{
    let own = own_bag(alloc, request, designator)?;
    if !is_empty(own.values()) {
        return Ok(own);
    }
    source(alloc, held, request, designator)
}

// The values of a designator for which the request has none.
fn source<'a, L: LookUps>(
    alloc: Global,
    held: &'a L,
    request: &Request,
    designator: &Designator,
) -> Result<LentBag<'a>, AllocError>
    ensures { IfOk result (λ b. b ≡ record {
      datatype = designator.now.datatype;
      values = source_values (L.looks held.now) request.now designator.now;
    }) }
{
    let sought = Sought::of(designator);
    if asks_for(&sought, CURRENT_DATE, DataType::Date) {
        return dates(alloc, held);
    }
    if asks_for(&sought, CURRENT_TIME, DataType::Time) {
        return times(alloc, held);
    }
    if asks_for(&sought, CURRENT_DATE_TIME, DataType::DateTime) {
        return date_times(alloc, held);
    }
    match entity_of(request, designator.category.as_str()) {
        None => Ok(LentBag::empty(designator.datatype)),
        Some(entity) => values_of(alloc, held, designator, entity),
    }
}

// The date, if it is known.
fn dates<'a, L: LookUps>(alloc: Global, held: &L) -> Result<LentBag<'a>, AllocError>
    ensures { IfOk result (λ b. b ≡ record {
      datatype = types.Date;
      values = known_values values.Date (L.looks held.now).date;
    }) }
{
    known(alloc, DataType::Date, held.date().map(Value::Date))
}

// The time of day, if it is known.
fn times<'a, L: LookUps>(alloc: Global, held: &L) -> Result<LentBag<'a>, AllocError>
    ensures { IfOk result (λ b. b ≡ record {
      datatype = types.Time;
      values = known_values values.Time (L.looks held.now).time;
    }) }
{
    known(alloc, DataType::Time, held.time().map(Value::Time))
}

// The date and time, if both are known.
fn date_times<'a, L: LookUps>(alloc: Global, held: &L) -> Result<LentBag<'a>, AllocError>
    ensures { IfOk result (λ b. b ≡ record {
      datatype = types.DateTime;
      values = known_values values.DateTime (L.looks held.now).date_time;
    }) }
{
    let date_time = held.date_time().map(Value::DateTime);
    known(alloc, DataType::DateTime, date_time)
}

// The values of an entity.
fn values_of<'a, L: LookUps>(
    alloc: Global,
    held: &'a L,
    designator: &Designator,
    entity: &Text,
) -> Result<LentBag<'a>, AllocError>
    ensures { IfOk result (λ b. b ≡ record {
      datatype = designator.now.datatype;
      values = (L.looks held.now).values (key_for designator.now entity.now);
    }) }
{
    let key = key_for(alloc, designator, entity)?;
    if let Some(values) = held.sole(&key) {
        return Ok(LentBag::lying(key.datatype, values));
    }
    let mut bag = Bag::new(alloc, designator.datatype);
    held.values(&key, &mut bag)?;
    LentBag::owned(alloc, bag)
}

// The value of what is asked of the environment, or none.
fn known<'a>(
    alloc: Global,
    datatype: DataType,
    value: Option<Value>,
) -> Result<LentBag<'a>, AllocError>
    requires { IfSome value (λ v. datatype_of v ≡ datatype) }
    ensures { IfOk result (λ b. b ≡ record { datatype = datatype; values = option_to_list value }) }
{
    match value {
        None => Ok(LentBag::empty(datatype)),
        Some(value) => LentBag::owned(alloc, Bag::of_one(alloc, value)?),
    }
}

/// Whether an attribute of the environment is looked for, of a type, without an issuer.
///
/// Its contract is an equation.
pub fn asks_for(sought: &Sought<'_>, attribute: &str, datatype: DataType) -> bool
    ensures { result ≡ asks_for attribute.now datatype (designator_of sought.now) }
{
    sought.category == ENVIRONMENT
        && sought.attribute == attribute
        && sought.datatype == datatype
        && sought.issuer.is_none()
}

/// The id attribute of a category whose values modules hold: of access-subject, resource or action (appendix B.4 to
/// B.6).
///
/// Its contract is an equation.
pub fn id_attribute(category: &str) -> Option<&str>
    ensures { option_copied result ≡ id_attribute category.now }
{
    if category == ACCESS_SUBJECT {
        Some(SUBJECT_ID)
    } else if category == RESOURCE {
        Some(RESOURCE_ID)
    } else if category == ACTION {
        Some(ACTION_ID)
    } else {
        None
    }
}

/// The entity of a category: the only string that the request has of its id attribute.
///
/// Its contract is an equation.
pub fn entity_of<'a>(request: &'a Request, category: &'a str) -> Option<&'a Text>
    ensures { option_copied result ≡ entity_of request.now category.now }
{
    let id = id_attribute(category)?;
    only_text(request, category, id)
}

// The only string that the request has of an attribute, of whichever issuer.
fn only_text<'a>(request: &'a Request, category: &'a str, attribute: &'a str) -> Option<&'a Text>
    ensures { option_copied result ≡ only_text request.now category.now attribute.now }
{
    let sought = Sought {
        category,
        attribute,
        datatype: DataType::Text,
        issuer: None,
    };
    text_of(only_own(request, &sought)?)
}

// The text that a value is.
fn text_of(value: &Value) -> Option<&Text>
    ensures { option_copied result ≡ text_of value.now }
{
    match value {
        Value::Text(text) => Some(text),
        _ => None,
    }
}

// The key by which the values of an entity are looked up.
fn key_for(alloc: Global, designator: &Designator, entity: &Text) -> Result<AttrKey, AllocError>
    ensures { IfOk result (λ k. k ≡ key_for designator.now entity.now) }
{
    Ok(AttrKey {
        category: designator.category.copy(alloc)?,
        entity: entity.copy(alloc)?,
        attribute: designator.attribute.copy(alloc)?,
        datatype: designator.datatype,
        issuer: copied_text(alloc, &designator.issuer)?,
    })
}
