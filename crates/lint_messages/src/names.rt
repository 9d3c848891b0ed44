//! What is wrong with an identifier, a version, or the name of an algorithm, a function or a data type.

use crate::absent::{instead_of_function, instead_of_type};
use crate::asked::FaultPlace;
use crate::known::{
    nearest_function, nearest_policy_algorithm, nearest_rule_algorithm, nearest_type,
};
use crate::near::did_you_mean;
use crate::words::quoted;
use ent_combine::{PolicyAlg, RuleAlg};
use ent_json::{JsonTree, text_at};
use lint_places::Part;
use std::alloc::{AllocError, Global};
use std::collections::BTreeSet;

/// The text that stands at a place, or nothing.
fn text_of<'a, J: JsonTree>(asked: &FaultPlace<'a, J>) -> &'a str {
    asked.json.as_str().unwrap_or("")
}

/// What is wrong with an identifier, or with those of some rules.
pub(crate) fn identifier_sentence<J: JsonTree>(
    asked: &FaultPlace<'_, J>,
) -> Result<Option<String>, AllocError> {
    match asked.part {
        Part::Name => Ok(Some(name_sentence(asked)?)),
        Part::Rules => twice_sentence(asked),
        _ => Ok(None),
    }
}

/// What is wrong with the length of an identifier.
fn name_sentence<J: JsonTree>(asked: &FaultPlace<'_, J>) -> Result<String, AllocError> {
    let alloc = asked.alloc;
    let key = asked.key;
    let length = text_of(asked).len();
    if length == 0 {
        return format!(in alloc; "`{key}` is empty; it has 1 to 256 bytes");
    }
    format!(in alloc; "`{key}` has {length} bytes; it has at most 256")
}

/// The first id that two rules have.
fn twice_sentence<J: JsonTree>(asked: &FaultPlace<'_, J>) -> Result<Option<String>, AllocError> {
    let alloc = asked.alloc;
    let Some(rules) = asked.json.as_array() else {
        return Ok(None);
    };
    let mut seen: BTreeSet<&str> = BTreeSet::new(alloc);
    for rule in rules {
        let Some(id) = text_at(rule, "RuleId") else {
            continue;
        };
        if !seen.insert(id)? {
            let id = quoted(alloc, id)?;
            return Ok(Some(format!(in alloc; "two rules of the policy are called {id}")?));
        }
    }
    Ok(None)
}

/// The most parts that a version has.
const MOST_PARTS: usize = 8;

/// The most digits that a number of a version has.
const MOST_DIGITS: usize = 9;

/// Whether it is a number of a version.
fn is_number(part: &str) -> bool {
    !part.is_empty()
        && part.len() <= MOST_DIGITS
        && part.as_bytes().iter().all(|byte| byte.is_ascii_digit())
}

/// What is wrong with a version or a version pattern.
pub(crate) fn version_sentence<J: JsonTree>(
    asked: &FaultPlace<'_, J>,
) -> Result<String, AllocError> {
    let alloc = asked.alloc;
    let text = text_of(asked);
    let is_pattern = asked.part == Part::Pattern;
    let name = if is_pattern {
        "version pattern"
    } else {
        "version"
    };
    let shown = quoted(alloc, text)?;
    let cause = part_sentence(alloc, text, is_pattern)?;
    format!(in alloc; "{shown} is no {name}: {cause}")
}

/// What is wrong with the parts of a version or a version pattern.
fn part_sentence(alloc: Global, text: &str, is_pattern: bool) -> Result<String, AllocError> {
    let count = text.split('.').count();
    if count > MOST_PARTS {
        return format!(in alloc; "it has {count} parts, at most 8 are allowed");
    }
    for part in text.split('.') {
        if is_number(part) || is_pattern && part == "*" {
            continue;
        }
        if is_pattern && part == "+" {
            if text.ends_with('+') {
                continue;
            }
            return String::from_str(alloc, "`+` stands in the last place alone");
        }
        if part.is_empty() {
            return String::from_str(alloc, "a part of it is empty");
        }
        let part = quoted(alloc, part)?;
        let others = if is_pattern { ", `*` or `+`" } else { "" };
        return format!(in alloc; "{part} isn't a number of 1 to 9 digits{others}");
    }
    String::from_str(alloc, "`+` stands in the last place alone")
}

/// What is wrong with the identifier of a combining algorithm.
pub(crate) fn algorithm_sentence<J: JsonTree>(
    asked: &FaultPlace<'_, J>,
) -> Result<String, AllocError> {
    let alloc = asked.alloc;
    let id = text_of(asked);
    let shown = quoted(alloc, id)?;
    if asked.part == Part::RuleAlgorithm {
        let meant = did_you_mean(alloc, nearest_rule_algorithm(alloc, id)?)?;
        if PolicyAlg::from_id(id).is_some() {
            return format!(in alloc;
                "{shown} combines the children of a policy set, not rules{meant}"
            );
        }
        return format!(in alloc; "no rule combining algorithm is called {shown}{meant}");
    }
    let meant = did_you_mean(alloc, nearest_policy_algorithm(alloc, id)?)?;
    if RuleAlg::from_id(id).is_some() {
        return format!(in alloc; "{shown} combines the rules of a policy, not children{meant}");
    }
    format!(in alloc; "no policy combining algorithm is called {shown}{meant}")
}

/// That no function has that identifier.
pub(crate) fn function_sentence<J: JsonTree>(
    asked: &FaultPlace<'_, J>,
) -> Result<String, AllocError> {
    let alloc = asked.alloc;
    let id = text_of(asked);
    let shown = quoted(alloc, id)?;
    if let Some(instead) = instead_of_function(id) {
        return format!(in alloc;
            "{shown} is a function of the standard that isn't here; instead: {instead}"
        );
    }
    let meant = match nearest_function(alloc, id, asked.key == "MatchId")? {
        Some(id) => did_you_mean(alloc, Some(id.as_str()))?,
        None => String::new(alloc),
    };
    format!(in alloc; "no function is called {shown}{meant}")
}

/// That no data type has that name.
pub(crate) fn data_type_sentence(alloc: Global, name: &str) -> Result<String, AllocError> {
    let shown = quoted(alloc, name)?;
    if let Some(instead) = instead_of_type(name) {
        return format!(in alloc;
            "{shown} is a data type of the standard that isn't here; instead: {instead}"
        );
    }
    match nearest_type(alloc, name)? {
        Some(meant) => format!(in alloc; "no data type is called {shown}; did you mean `{meant}`?"),
        None => {
            format!(in alloc;
                "no data type is called {shown}; there are string, boolean, integer, date, time, dateTime, anyURI and yearMonthDuration"
            )
        }
    }
}
