//! Literals as they are read, and the values that they stand for.

ghost use Rattle.std.specs.Prelude.{◌≡◌, IfOk};
ghost use Rattle.ent_values.specs.Reading.{value_of};
ghost use Rattle.ent_policy.specs.Reading.{boolean_as, integer_as, literal_as, type_of_value, value_read, written_type};

use crate::fault::DocFault;
use crate::raw::{RawLiteral, RawValue};
use crate::read::{Read, known};
use ent_values::{DataType, Text, Value, ValueFault};
use std::alloc::{AllocError, Global};

/// The type of a literal that names none.
fn written_type(literal: &RawLiteral) -> DataType
    ensures { result ≡ written_type literal.now }
{
    match literal {
        RawLiteral::Text(_) => DataType::Text,
        RawLiteral::Boolean(_) => DataType::Boolean,
        RawLiteral::Integer(_) => DataType::Integer,
    }
}

/// The type of a value, by its name where it has one.
fn type_of_value(literal: &RawLiteral, name: Option<Text>) -> Option<DataType>
    ensures { result ≡ type_of_value literal.now name }
{
    match name {
        None => Some(written_type(literal)),
        Some(name) => DataType::from_name(name.as_str()),
    }
}

/// The value of a type that a text stands for.
fn parsed(alloc: Global, text: &str, datatype: DataType) -> Result<Option<Value>, AllocError>
    ensures { IfOk result (λ v. v ≡ value_of datatype text.now) }
{
    match Value::parse(alloc, datatype, text) {
        Ok(value) => Ok(Some(value)),
        Err(ValueFault::BadValue) => Ok(None),
        Err(ValueFault::Memory) => Err(AllocError),
    }
}

/// The value of a type that a text stands for, which a string or a URI takes over.
#[tactic(auto, unfolding(ent_values::specs::Reading::value_of))]
fn text_as(alloc: Global, text: Text, datatype: DataType) -> Result<Option<Value>, AllocError>
    ensures { IfOk result (λ v. v ≡ value_of datatype text) }
{
    match datatype {
        DataType::Text => Ok(Some(Value::Text(text))),
        DataType::AnyUri => Ok(Some(Value::AnyUri(text))),
        _ => parsed(alloc, text.as_str(), datatype),
    }
}

/// The value of a type that a JSON boolean is: `None`, unless the type is boolean.
///
/// Its contract is an equation.
pub fn boolean_as(boolean: bool, datatype: DataType) -> Option<Value>
    ensures { result ≡ boolean_as boolean datatype }
{
    match datatype {
        DataType::Boolean => Some(Value::Boolean(boolean)),
        _ => None,
    }
}

/// The value of a type that a JSON number is: `None`, unless the type is integer.
///
/// Its contract is an equation.
pub fn integer_as(integer: i64, datatype: DataType) -> Option<Value>
    ensures { result ≡ integer_as integer datatype }
{
    match datatype {
        DataType::Integer => Some(Value::Integer(integer)),
        _ => None,
    }
}

/// The value of a type that a literal is.
#[tactic(auto, unfolding(crate::specs::Reading::literal_as))]
fn literal_as(
    alloc: Global,
    literal: RawLiteral,
    datatype: DataType,
) -> Result<Option<Value>, AllocError>
    ensures { IfOk result (λ v. v ≡ literal_as literal datatype) }
{
    match literal {
        RawLiteral::Text(text) => text_as(alloc, text, datatype),
        RawLiteral::Boolean(boolean) => Ok(boolean_as(boolean, datatype)),
        RawLiteral::Integer(integer) => Ok(integer_as(integer, datatype)),
    }
}

/// A value, by the type that it names or by the way in which it is written.
#[tactic(auto, unfolding(crate::specs::Reading::value_read))]
pub(crate) fn value(alloc: Global, raw: RawValue) -> Result<Read<Value>, AllocError>
    ensures { IfOk result (λ r. r ≡ value_read raw) }
{
    let RawValue { datatype, literal } = raw;
    let found = match type_of_value(&literal, datatype) {
        None => None,
        Some(datatype) => literal_as(alloc, literal, datatype)?,
    };
    Ok(known(Value::Boolean(false), DocFault::Type, found))
}
