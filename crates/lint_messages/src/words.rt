//! Words of sentences: names of parts, of kinds of JSON values and of types.

use ent_functions::ArgType;
use ent_json::JsonTree;
use ent_values::DataType;
use lint_places::Part;
use std::alloc::{AllocError, Global};

/// How many characters of a word are shown.
const MOST_SHOWN: usize = 80;

/// The word as sentences have it: cut behind its first eighty characters where it is longer, which two dots show.
///
/// # Errors
///
/// `AllocError` if memory runs out.
///
/// Its contract leaves open: all of it: what is left of a word is shown by `lint_told`.
pub fn shortened(alloc: Global, word: &str) -> Result<String, AllocError> {
    let mut shown = String::new(alloc);
    for (number, character) in word.chars().enumerate() {
        if number == MOST_SHOWN {
            shown.push_str("..")?;
            break;
        }
        shown.push(character)?;
    }
    Ok(shown)
}

/// The word in quotes, cut where it is long.
pub(crate) fn quoted(alloc: Global, word: &str) -> Result<String, AllocError> {
    let shown = shortened(alloc, word)?;
    let shown = shown.as_str();
    format!(in alloc; "`{shown}`")
}

/// The words with commas between them, and `or` before the last.
pub(crate) fn alternatives(alloc: Global, words: &[&str]) -> Result<String, AllocError> {
    let mut all = String::new(alloc);
    for (number, word) in words.iter().enumerate() {
        if number > 0 {
            let is_last = words.len() - number == 1;
            all.push_str(if is_last { " or " } else { ", " })?;
        }
        let word = quoted(alloc, word)?;
        all.push_str(word.as_str())?;
    }
    Ok(all)
}

/// What is said of a JSON value by its kind.
pub(crate) fn kind_of<J: JsonTree>(json: &J) -> &'static str {
    if json.is_null() {
        return "null";
    }
    if json.as_bool().is_some() {
        return "a boolean";
    }
    if json.is_number() {
        return "a number";
    }
    if json.as_str().is_some() {
        return "a text";
    }
    if json.as_array().is_some() {
        return "a list";
    }
    "an object"
}

/// Whether it is an object.
pub(crate) fn is_object<J: JsonTree>(json: &J) -> bool {
    let is_simple = json.is_null() || json.is_number() || json.as_bool().is_some();
    !is_simple && json.as_str().is_none() && json.as_array().is_none()
}

/// What an object of that part is called.
pub(crate) fn object_name(part: Part) -> &'static str {
    match part {
        Part::Document => "a document",
        Part::Policy => "a policy",
        Part::Set => "a policy set",
        Part::Child => "a child of a policy set",
        Part::PolicyReference | Part::SetReference => "a reference",
        Part::Rule => "a rule",
        Part::Definition => "a variable definition",
        Part::Target => "a target",
        Part::AnyOf => "a member of `AnyOf`",
        Part::AllOf => "a member of `AllOf`",
        Part::Match => "a match",
        Part::Condition => "a condition",
        Part::Argument => "an argument",
        Part::Value => "an `AttributeValue`",
        Part::Designator => "an `AttributeDesignator`",
        Part::VariableReference => "a `VariableReference`",
        Part::Apply => "an `Apply`",
        Part::FunctionReference => "a `Function`",
        Part::Obligation => "an obligation",
        Part::Advice => "an advice",
        Part::Assignment => "an assignment",
        _ => "an expression",
    }
}

/// One value of that type.
fn one_of(datatype: DataType) -> &'static str {
    match datatype {
        DataType::Text => "a string",
        DataType::Boolean => "a boolean",
        DataType::Integer => "an integer",
        DataType::Date => "a date",
        DataType::AnyUri => "an anyURI",
        DataType::YearMonth => "a yearMonthDuration",
        DataType::Time => "a time",
        DataType::DateTime => "a dateTime",
    }
}

/// A bag of values of that type.
fn bag_of(datatype: DataType) -> &'static str {
    match datatype {
        DataType::Text => "a bag of strings",
        DataType::Boolean => "a bag of booleans",
        DataType::Integer => "a bag of integers",
        DataType::Date => "a bag of dates",
        DataType::AnyUri => "a bag of anyURIs",
        DataType::YearMonth => "a bag of yearMonthDurations",
        DataType::Time => "a bag of times",
        DataType::DateTime => "a bag of dateTimes",
    }
}

/// What has that type.
pub(crate) fn typed(given: ArgType) -> &'static str {
    match given {
        ArgType::One(datatype) => one_of(datatype),
        ArgType::Many(datatype) => bag_of(datatype),
        ArgType::Fun(_) => "a function",
    }
}

/// What a value of that type is.
pub(crate) fn lexical(datatype: DataType) -> &'static str {
    match datatype {
        DataType::Text | DataType::AnyUri => "any text",
        DataType::Boolean => "true or false, or the text `true`, `false`, `1` or `0`",
        DataType::Integer => "a whole number that fits 64 bits with a sign",
        DataType::Date => "a day of the calendar, as `2025-02-28`",
        DataType::YearMonth => "written as `P1Y2M`, `P1Y` or `P2M`",
        DataType::Time => "written as `09:00:00`, up to `23:59:59`",
        DataType::DateTime => "a date, a `T` and a time, as `2025-02-28T09:00:00`",
    }
}

/// The place of an argument by a word, from 0.
pub(crate) fn ordinal(alloc: Global, place: usize) -> Result<String, AllocError> {
    let word = match place {
        0 => "first",
        1 => "second",
        2 => "third",
        3 => "fourth",
        4 => "fifth",
        _ => {
            let number = place.saturating_add(1);
            return format!(in alloc; "{number}th");
        }
    };
    String::from_str(alloc, word)
}

/// A number of arguments.
pub(crate) fn arguments(alloc: Global, count: usize) -> Result<String, AllocError> {
    match count {
        0 => String::from_str(alloc, "no argument"),
        1 => String::from_str(alloc, "one argument"),
        _ => format!(in alloc; "{count} arguments"),
    }
}

/// The last word of an identifier: what stands behind its last colon or number sign.
pub(crate) fn last_word(id: &str) -> &str {
    let id = match id.rsplit_once(':') {
        Some((_, last)) => last,
        None => id,
    };
    match id.rsplit_once('#') {
        Some((_, last)) => last,
        None => id,
    }
}
