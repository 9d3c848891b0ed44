//! The types of expressions, as far as they can be told.

use ent_functions::{ArgType, Function};
use ent_json::{JsonTree, list_at, text_at};
use ent_values::DataType;
use std::alloc::{AllocError, Global};

/// How deep expressions are looked into: a document that is asked for types has none of more levels.
pub(crate) const LEVELS: usize = 17;

/// The type of an `AttributeValue`.
pub(crate) fn value_type<J: JsonTree>(body: &J) -> Option<DataType> {
    let value = body.get("Value")?;
    match body.get("DataType") {
        Some(name) => DataType::from_name(name.as_str()?),
        None => Some(written_type(value)),
    }
}

/// The type of a literal by the way in which it is written.
pub(crate) fn written_type<J: JsonTree>(value: &J) -> DataType {
    if value.as_bool().is_some() {
        return DataType::Boolean;
    }
    if value.is_number() {
        return DataType::Integer;
    }
    DataType::Text
}

/// The type of the values of an `AttributeDesignator`.
pub(crate) fn designator_type<J: JsonTree>(body: &J) -> Option<DataType> {
    DataType::from_name(text_at(body, "DataType")?)
}

/// The function that is named at a key.
pub(crate) fn function_at<J: JsonTree>(body: &J, key: &str) -> Option<Function> {
    Function::from_id(text_at(body, key)?)
}

/// The definition of that variable.
pub(crate) fn definition_of<'a, J: JsonTree>(definitions: &'a [J], id: &str) -> Option<&'a J> {
    for definition in definitions {
        if text_at(definition, "VariableId") == Some(id) {
            return definition.get("Expression");
        }
    }
    None
}

/// The type of an expression, looked into that many levels deep.
#[cycle(types)]
pub(crate) fn type_of<J: JsonTree>(
    alloc: Global,
    definitions: &[J],
    json: &J,
    levels: usize,
) -> Result<Option<ArgType>, AllocError> {
    if levels == 0 {
        return Ok(None);
    }
    let Some((key, body)) = json.one_member() else {
        return Ok(None);
    };
    if key == "AttributeValue" {
        return Ok(value_type(body).map(ArgType::One));
    }
    if key == "AttributeDesignator" {
        return Ok(designator_type(body).map(ArgType::Many));
    }
    if key == "Function" {
        return Ok(function_at(body, "FunctionId").map(ArgType::Fun));
    }
    if key == "VariableReference" {
        return variable_type(alloc, definitions, body, levels - 1);
    }
    if key == "Apply" {
        return apply_type(alloc, definitions, body, levels - 1);
    }
    Ok(None)
}

/// The type of a variable that is named.
#[cycle(types)]
fn variable_type<J: JsonTree>(
    alloc: Global,
    definitions: &[J],
    body: &J,
    levels: usize,
) -> Result<Option<ArgType>, AllocError> {
    let Some(id) = text_at(body, "VariableId") else {
        return Ok(None);
    };
    match definition_of(definitions, id) {
        Some(expression) => type_of(alloc, definitions, expression, levels),
        None => Ok(None),
    }
}

/// The type of what an `Apply` gives.
#[cycle(types)]
fn apply_type<J: JsonTree>(
    alloc: Global,
    definitions: &[J],
    body: &J,
    levels: usize,
) -> Result<Option<ArgType>, AllocError> {
    let Some(function) = function_at(body, "FunctionId") else {
        return Ok(None);
    };
    match argument_types(alloc, definitions, body, levels)? {
        Some(types) => Ok(function.result_type(types.as_slice())),
        None => Ok(None),
    }
}

/// The types of the arguments of an `Apply`, if each has one.
#[cycle(types)]
pub(crate) fn argument_types<J: JsonTree>(
    alloc: Global,
    definitions: &[J],
    body: &J,
    levels: usize,
) -> Result<Option<Vec<ArgType>>, AllocError> {
    let mut types = Vec::new(alloc);
    let Some(arguments) = list_at(body, "Arguments") else {
        return Ok(None);
    };
    for argument in arguments {
        match type_of(alloc, definitions, argument, levels)? {
            Some(given) => types.push(given)?,
            None => return Ok(None),
        }
    }
    Ok(Some(types))
}
