//! What is wrong with the form of a part.

use crate::asked::{FaultPlace, FoundFault, here};
use crate::near::{did_you_mean, nearest};
use crate::scan::{Member, Members, first_value};
use crate::words::{alternatives, is_object, kind_of, object_name, quoted};
use ent_json::JsonTree;
use lint_places::Part;
use std::alloc::{AllocError, Global};

/// What is wrong with the form of a part.
pub(crate) fn form_fault<'a, J: JsonTree>(
    asked: &FaultPlace<'a, J>,
) -> Result<FoundFault<'a>, AllocError> {
    if asked.part.item().is_some() {
        let sentence = list_sentence(asked)?;
        return Ok(here(asked, sentence));
    }
    if asked.part.rows().is_empty() {
        let sentence = leaf_sentence(asked)?;
        return Ok(here(asked, sentence));
    }
    if !is_object(asked.json) {
        let sentence = kind_sentence(asked, object_name(asked.part), "an object")?;
        return Ok(here(asked, sentence));
    }
    if let Some(found) = unknown_key(asked)? {
        return Ok(found);
    }
    let sentence = if has_one_key(asked.part) {
        one_key_sentence(asked)?
    } else {
        missing_sentence(asked)?
    };
    Ok(here(asked, sentence))
}

/// Whether an object of that part has exactly one key.
fn has_one_key(part: Part) -> bool {
    matches!(
        part,
        Part::Document | Part::Child | Part::Condition | Part::Expression | Part::Argument
    )
}

/// That something is of the wrong kind.
fn kind_sentence<J: JsonTree>(
    asked: &FaultPlace<'_, J>,
    name: &str,
    expected: &str,
) -> Result<String, AllocError> {
    let alloc = asked.alloc;
    let kind = kind_of(asked.json);
    format!(in alloc; "{name} is {kind}; {expected} is expected")
}

/// What is wrong with what should be a list, or a list with members.
fn list_sentence<J: JsonTree>(asked: &FaultPlace<'_, J>) -> Result<String, AllocError> {
    let alloc = asked.alloc;
    let key = quoted(alloc, asked.key)?;
    if is_empty_list(asked.json) {
        return empty_sentence(alloc, key.as_str());
    }
    kind_sentence(asked, key.as_str(), "a list")
}

/// That a list is empty.
fn empty_sentence(alloc: Global, key: &str) -> Result<String, AllocError> {
    format!(in alloc; "{key} is an empty list; it has at least one member")
}

/// What is wrong with what should be a text, a flag or a literal.
fn leaf_sentence<J: JsonTree>(asked: &FaultPlace<'_, J>) -> Result<String, AllocError> {
    let alloc = asked.alloc;
    let key = quoted(alloc, asked.key)?;
    match asked.part {
        Part::Effect => effect_sentence(asked, key.as_str()),
        Part::Flag => kind_sentence(asked, key.as_str(), "true or false"),
        Part::Literal => literal_sentence(asked, key.as_str()),
        _ => kind_sentence(asked, key.as_str(), "a text"),
    }
}

/// What is wrong with an effect.
fn effect_sentence<J: JsonTree>(
    asked: &FaultPlace<'_, J>,
    key: &str,
) -> Result<String, AllocError> {
    let alloc = asked.alloc;
    let Some(word) = asked.json.as_str() else {
        return kind_sentence(asked, key, "`Permit` or `Deny`");
    };
    let meant = did_you_mean(alloc, nearest(alloc, word, &["Permit", "Deny"])?)?;
    let word = quoted(alloc, word)?;
    format!(in alloc; "{key} is {word}, and not `Permit` or `Deny`{meant}")
}

/// What is wrong with a literal.
fn literal_sentence<J: JsonTree>(
    asked: &FaultPlace<'_, J>,
    key: &str,
) -> Result<String, AllocError> {
    let alloc = asked.alloc;
    if !asked.json.is_number() {
        return kind_sentence(asked, key, "a text, a boolean or a whole number");
    }
    let Ok(number) = str::from_utf8(first_value(asked.text)) else {
        return kind_sentence(asked, key, "a whole number of 64 bits");
    };
    let number = quoted(alloc, number)?;
    format!(in alloc;
        "{number} isn't a whole number that fits 64 bits, written without point and exponent"
    )
}

/// The keys that an object of that part may have.
fn known_keys(alloc: Global, part: Part) -> Result<Vec<&'static str>, AllocError> {
    let mut keys = Vec::new(alloc);
    for row in part.rows() {
        keys.push(row.0)?;
    }
    Ok(keys)
}

/// The first key of the object that isn't known, if there is one, where it counts: where it stands last.
fn unknown_key<'a, J: JsonTree>(
    asked: &FaultPlace<'a, J>,
) -> Result<Option<FoundFault<'a>>, AllocError> {
    let alloc = asked.alloc;
    let known = known_keys(alloc, asked.part)?;
    let mut members = Members::of(asked.text);
    for _ in 0..asked.text.len() {
        let Some(member) = members.pass() else {
            return Ok(None);
        };
        let Some(key) = member.name(alloc)? else {
            return Ok(None);
        };
        if !known.as_slice().contains(&key.as_str()) {
            let sentence = unknown_sentence(asked, key.as_str(), known.as_slice())?;
            let text = last_at(alloc, member, members, key.as_str())?;
            return Ok(Some(FoundFault { sentence, text }));
        }
    }
    Ok(None)
}

/// The text from a key on where it stands last, of the member that has it and those behind.
fn last_at<'a>(
    alloc: Global,
    first: Member<'a>,
    behind: Members<'a>,
    key: &str,
) -> Result<&'a [u8], AllocError> {
    let mut members = behind;
    let mut text = first.key;
    for _ in 0..first.key.len() {
        let Some(member) = members.pass() else {
            return Ok(text);
        };
        if member.has_key(alloc, key)? {
            text = member.key;
        }
    }
    Ok(text)
}

/// Whether an object of that part may have the key.
fn has_key(part: Part, key: &str) -> bool {
    part.rows().iter().any(|row| row.0 == key)
}

/// The key of that part at which something stands that may have this key.
fn key_around(part: Part, key: &str) -> Option<&'static str> {
    for (outer, inner) in part.rows() {
        let inner = inner.item().unwrap_or(*inner);
        if has_key(inner, key) {
            return Some(*outer);
        }
    }
    None
}

/// That a key isn't known.
fn unknown_sentence<J: JsonTree>(
    asked: &FaultPlace<'_, J>,
    key: &str,
    known: &[&'static str],
) -> Result<String, AllocError> {
    let alloc = asked.alloc;
    let name = object_name(asked.part);
    let shown = quoted(alloc, key)?;
    if let Some(outer) = key_around(asked.part, key) {
        return format!(in alloc;
            "{name} has the key {shown}, which stands one level deeper, in `{outer}`"
        );
    }
    if let Some(meant) = nearest(alloc, key, known)? {
        let meant = did_you_mean(alloc, Some(meant))?;
        return format!(in alloc; "{name} has the key {shown}, which isn't known there{meant}");
    }
    let known = alternatives(alloc, known)?;
    format!(in alloc; "{name} has the key {shown}, which isn't known there; known is {known}")
}

/// That an object has not exactly one key.
fn one_key_sentence<J: JsonTree>(asked: &FaultPlace<'_, J>) -> Result<String, AllocError> {
    let alloc = asked.alloc;
    let name = object_name(asked.part);
    let known = known_keys(alloc, asked.part)?;
    let mut present = Vec::new(alloc);
    for key in known.as_slice() {
        if asked.json.get(key).is_some() {
            present.push(*key)?;
        }
    }
    match present.as_slice() {
        [] => {
            let known = alternatives(alloc, known.as_slice())?;
            format!(in alloc; "{name} is an empty object; one key is expected, {known}")
        }
        [first, second, ..] => {
            format!(in alloc;
                "{name} has the keys `{first}` and `{second}`; exactly one key is expected"
            )
        }
        [only] => format!(in alloc; "what stands at `{only}` has the wrong form"),
    }
}

/// The keys that an object of that part must have.
fn required_keys(part: Part) -> &'static [&'static str] {
    match part {
        Part::Policy => &["PolicyId", "Version", "RuleCombiningAlgId"],
        Part::Set => &["PolicySetId", "Version", "PolicyCombiningAlgId"],
        Part::PolicyReference | Part::SetReference => &["Id"],
        Part::Rule => &["RuleId", "Effect"],
        Part::Definition => &["VariableId", "Expression"],
        Part::AnyOf => &["AllOf"],
        Part::AllOf => &["Match"],
        Part::Match => &["MatchId", "AttributeValue", "AttributeDesignator"],
        Part::Value => &["Value"],
        Part::Designator => &["Category", "AttributeId", "DataType"],
        Part::VariableReference => &["VariableId"],
        Part::Apply | Part::FunctionReference => &["FunctionId"],
        Part::Obligation => &["ObligationId", "FulfillOn"],
        Part::Advice => &["AdviceId", "AppliesTo"],
        Part::Assignment => &["AttributeId", "Expression"],
        _ => &[],
    }
}

/// That a key is missing, or a list is empty.
fn missing_sentence<J: JsonTree>(asked: &FaultPlace<'_, J>) -> Result<String, AllocError> {
    let alloc = asked.alloc;
    let name = object_name(asked.part);
    for key in required_keys(asked.part) {
        match asked.json.get(key) {
            None => return format!(in alloc; "{name} has no `{key}`, which it must have"),
            Some(value) => {
                if is_empty_list(value) {
                    let key = quoted(alloc, key)?;
                    return empty_sentence(alloc, key.as_str());
                }
            }
        }
    }
    format!(in alloc; "{name} has a key at which something of the wrong form stands")
}

/// Whether it is a list without members.
fn is_empty_list<J: JsonTree>(json: &J) -> bool {
    match json.as_array() {
        Some(members) => members.is_empty(),
        None => false,
    }
}
