//! Reading JSON and the parts of commands.

ghost use Rattle.std.specs.Prelude.{◌≡◌, IfOk, IfSome, option_map, map};
ghost use Rattle.std.specs.Option.{IfNone};
ghost use Rattle.serde_json.specs.View.{items_of};
ghost use Rattle.ent_values.specs.Reading.{date_of, date_time_of};
ghost use Rattle.ent_values.specs.Types.{datatype_of};
ghost use Rattle.ent_values.specs.declared.datatype.DataType.TheVariants as types;
ghost use Rattle.ent_values.specs.declared.value.Value.TheVariants as values;
ghost use Rattle.ent_policy.specs.Gives.{Gives};
ghost use Rattle.ent_command.specs.CommandView.{row_view};
ghost use Rattle.ent_command.specs.Edits.{key_of_row, root_of, row_read, values_in};

use crate::keys::AskedRow;
use ent_finder::RowKey;
use ent_json::JsonTree;
use ent_polform::{read_reference, read_value};
use ent_policy::{CheckFault, Reference};
use ent_values::{DataType, Date, DateTime, Items, Text, Value as AttributeValue, ValueFault};
use std::alloc::{AllocError, Global};

/// The root that a JSON value names: none for null.
pub(crate) fn read_root<J: JsonTree>(
    alloc: Global,
    value: &J,
) -> Result<Option<Reference>, CheckFault>
    ensures { Gives result (root_of (J.content value.now)) }
{
    if value.is_null() {
        return Ok(None);
    }
    Ok(Some(read_reference(alloc, value)?))
}

/// The day that a value is.
fn day_of(value: &AttributeValue) -> Option<Date>
    ensures day { IfSome result (λ day. value.now ≡ values.Date day) }
    ensures none { IfNone result (datatype_of value.now ≡ types.Date → ⊥) }
{
    match value {
        AttributeValue::Date(day) => Some(*day),
        _ => None,
    }
}

/// The day that a text writes.
pub(crate) fn read_day(alloc: Global, text: &str) -> Option<Date>
    ensures { result ≡ date_of text.now }
{
    match AttributeValue::parse(alloc, DataType::Date, text) {
        Ok(value) => day_of(&value),
        Err(_) => None,
    }
}

/// The moment that a value is.
fn moment_of(value: &AttributeValue) -> Option<DateTime>
    ensures moment { IfSome result (λ moment. value.now ≡ values.DateTime moment) }
    ensures none { IfNone result (datatype_of value.now ≡ types.DateTime → ⊥) }
{
    match value {
        AttributeValue::DateTime(moment) => Some(*moment),
        _ => None,
    }
}

/// The moment that a text writes.
pub(crate) fn read_moment(alloc: Global, text: &str) -> Option<DateTime>
    ensures { result ≡ date_time_of text.now }
{
    match AttributeValue::parse(alloc, DataType::DateTime, text) {
        Ok(value) => moment_of(&value),
        Err(_) => None,
    }
}

/// The values of that type that JSON values spell. `None` if one spells none.
fn read_values<J: JsonTree>(
    alloc: Global,
    datatype: DataType,
    values: &[J],
) -> Result<Option<Items<AttributeValue>>, AllocError>
    ensures { IfOk result (λ o. o ≡ values_in datatype (items_of (map J.content values.now))) }
{
    let mut items = Items::with_capacity(alloc, values.len())?;
    for value in values {
        match read_value(alloc, datatype, value) {
            Ok(value) => items.push(value)?,
            Err(ValueFault::BadValue) => return Ok(None),
            Err(ValueFault::Memory) => return Err(AllocError),
        }
    }
    Ok(Some(items))
}

/// The key of a row whose type was read.
fn key_of_row<J: JsonTree>(
    alloc: Global,
    row: &AskedRow<'_, J>,
    datatype: DataType,
) -> Result<RowKey, AllocError>
    ensures { IfOk result (λ k. k ≡ key_of_row (row_view J.content row.now) datatype) }
{
    let issuer = match row.issuer {
        None => None,
        Some(issuer) => Some(Text::from_str(alloc, issuer)?),
    };
    Ok(RowKey {
        category: Text::from_str(alloc, row.category)?,
        entity: Text::from_str(alloc, row.entity)?,
        attribute: Text::from_str(alloc, row.attribute)?,
        datatype,
        issuer,
    })
}

/// The key and the values of a row. `None` if its type or a value can't be read.
#[tactic(auto, unfolding(crate::specs::Edits::row_read))]
pub(crate) fn read_row<J: JsonTree>(
    alloc: Global,
    row: &AskedRow<'_, J>,
) -> Result<Option<(RowKey, Items<AttributeValue>)>, AllocError>
    ensures { IfOk result (λ o. o ≡ row_read (row_view J.content row.now)) }
{
    let Some(datatype) = DataType::from_name(row.datatype) else {
        return Ok(None);
    };
    match read_values(alloc, datatype, row.values)? {
        None => Ok(None),
        Some(values) => Ok(Some((key_of_row(alloc, row, datatype)?, values))),
    }
}
