//! What is wrong with the types of a part.

use crate::asked::FaultPlace;
use crate::names::data_type_sentence;
use crate::takes::misfit;
use crate::types::{
    LEVELS, argument_types, designator_type, function_at, type_of, value_type, written_type,
};
use crate::words::{last_word, lexical, quoted, typed};
use ent_functions::ArgType;
use ent_json::{JsonTree, text_at};
use ent_polform::read_value;
use ent_values::{DataType, ValueFault};
use lint_places::Part;
use std::alloc::AllocError;

/// What is wrong with the types of a part, where it can be told.
pub(crate) fn type_sentence<J: JsonTree>(
    asked: &FaultPlace<'_, J>,
) -> Result<Option<String>, AllocError> {
    match asked.part {
        Part::DataType => {
            let name = asked.json.as_str().unwrap_or("");
            Ok(Some(data_type_sentence(asked.alloc, name)?))
        }
        Part::Value => value_sentence(asked),
        Part::Match => match_sentence(asked),
        Part::Apply => apply_sentence(asked),
        Part::Condition => outcome_sentence(asked, "a condition gives one boolean"),
        Part::Expression => {
            outcome_sentence(asked, "what is defined or assigned is a value or a bag")
        }
        _ => Ok(None),
    }
}

/// What is wrong with the types of a part that isn't known to have a fault, by what stands in it alone.
pub(crate) fn own_type_sentence<J: JsonTree>(
    asked: &FaultPlace<'_, J>,
) -> Result<Option<String>, AllocError> {
    match asked.part {
        Part::Apply => apply_sentence(asked),
        Part::Value | Part::Designator => {
            if let Some(sentence) = unknown_type_sentence(asked)? {
                return Ok(Some(sentence));
            }
            if asked.part == Part::Designator || is_of_its_type(asked)? {
                return Ok(None);
            }
            value_sentence(asked)
        }
        _ => Ok(None),
    }
}

/// That the data type that is named isn't known.
fn unknown_type_sentence<J: JsonTree>(
    asked: &FaultPlace<'_, J>,
) -> Result<Option<String>, AllocError> {
    match text_at(asked.json, "DataType") {
        Some(name) if DataType::from_name(name).is_none() => {
            Ok(Some(data_type_sentence(asked.alloc, name)?))
        }
        _ => Ok(None),
    }
}

/// Whether a literal is a value of its type.
fn is_of_its_type<J: JsonTree>(asked: &FaultPlace<'_, J>) -> Result<bool, AllocError> {
    let Some(value) = asked.json.get("Value") else {
        return Ok(true);
    };
    let Some(datatype) = value_type(asked.json) else {
        return Ok(true);
    };
    match read_value(asked.alloc, datatype, value) {
        Ok(_) => Ok(true),
        Err(ValueFault::BadValue) => Ok(false),
        Err(ValueFault::Memory) => Err(AllocError),
    }
}

/// That a literal isn't of its type.
fn value_sentence<J: JsonTree>(asked: &FaultPlace<'_, J>) -> Result<Option<String>, AllocError> {
    let alloc = asked.alloc;
    let Some(value) = asked.json.get("Value") else {
        return Ok(None);
    };
    let Some(datatype) = value_type(asked.json) else {
        return Ok(None);
    };
    let what = typed(ArgType::One(datatype));
    let how = lexical(datatype);
    if let Some(text) = value.as_str() {
        let text = quoted(alloc, text)?;
        return Ok(Some(format!(in alloc; "{text} isn't {what}; {what} is {how}")?));
    }
    let written = typed(ArgType::One(written_type(value)));
    Ok(Some(format!(in alloc; "`Value` is {written}, where `DataType` says {what}")?))
}

/// That the function of a match doesn't take its literal and a value of its attribute, or gives no boolean.
fn match_sentence<J: JsonTree>(asked: &FaultPlace<'_, J>) -> Result<Option<String>, AllocError> {
    let alloc = asked.alloc;
    let Some(function) = function_at(asked.json, "MatchId") else {
        return Ok(None);
    };
    let Some(literal) = asked.json.get("AttributeValue").and_then(value_type) else {
        return Ok(None);
    };
    let Some(attribute) = asked
        .json
        .get("AttributeDesignator")
        .and_then(designator_type)
    else {
        return Ok(None);
    };
    let given = [ArgType::One(literal), ArgType::One(attribute)];
    match function.result_type(&given) {
        Some(outcome) => {
            let id = function.id(alloc)?;
            let name = last_word(id.as_str());
            let what = typed(outcome);
            Ok(Some(format!(in alloc;
                "`{name}` gives {what}; a match takes a function that gives a boolean"
            )?))
        }
        None => {
            let cause = misfit(alloc, function, &given, false)?;
            Ok(Some(format!(in alloc;
                "{cause} (first comes the literal, then a value of the attribute)"
            )?))
        }
    }
}

/// That a function doesn't take its arguments.
fn apply_sentence<J: JsonTree>(asked: &FaultPlace<'_, J>) -> Result<Option<String>, AllocError> {
    let alloc = asked.alloc;
    let Some(function) = function_at(asked.json, "FunctionId") else {
        return Ok(None);
    };
    match argument_types(alloc, asked.definitions, asked.json, LEVELS)? {
        Some(given) => {
            if function.result_type(given.as_slice()).is_some() {
                return Ok(None);
            }
            Ok(Some(misfit(alloc, function, given.as_slice(), true)?))
        }
        None => Ok(None),
    }
}

/// That an expression gives something else than is expected.
fn outcome_sentence<J: JsonTree>(
    asked: &FaultPlace<'_, J>,
    expected: &str,
) -> Result<Option<String>, AllocError> {
    let alloc = asked.alloc;
    match type_of(alloc, asked.definitions, asked.json, LEVELS)? {
        Some(given) => {
            let what = typed(given);
            Ok(Some(format!(in alloc; "{expected}; this is {what}")?))
        }
        None => Ok(None),
    }
}
