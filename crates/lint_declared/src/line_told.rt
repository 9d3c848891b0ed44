//! What is said of a line with which something is wrong.

ghost use Rattle.std.specs.Prelude.{◌≡◌, IfOk, string_bytes, true};
ghost use Rattle.lint_messages.specs.Told.{is_one_line};

use crate::always::{ACTION, RESOURCE};
use crate::attribute::DeclaredAttribute;
use crate::claim::{Claim, SetRow};
use crate::lines::{FaultyLine, LineFault};
use crate::listed::{Listed, ListedName};
use crate::near::Candidates;
use crate::said::{name, said};
use crate::setting::values_at;
use crate::stray::value_in;
use crate::told::{undeclared_sentence, value_sentence};
use ent_json::{JsonTree, read_json};
use ent_values::Text;
use json::Scratch;
use lint_messages::{is_merge_marker, one_line};
use std::alloc::{AllocError, Global};

/// A JSON value as it is said: a text as it is, a number and a flag as they are written, and nothing else.
fn shown<J: JsonTree>(alloc: Global, json: &J) -> Result<String, AllocError> {
    if let Some(text) = json.as_str() {
        return String::from_str(alloc, text);
    }
    if let Some(number) = json.as_i64() {
        return format!(in alloc; "{number}");
    }
    match json.as_bool() {
        Some(flag) => format!(in alloc; "{flag}"),
        None => Ok(String::new(alloc)),
    }
}

/// What is said of a value of a line: that it isn't one of the attribute's type, or isn't among those that are listed.
fn value_told<J: JsonTree>(
    alloc: Global,
    attribute: &DeclaredAttribute,
    value: &J,
    attributes: &[DeclaredAttribute],
) -> Result<String, AllocError> {
    let text = shown(alloc, value)?;
    if value_in(alloc, attribute.datatype, value)?.is_some() {
        return value_sentence(alloc, attribute, text.as_str(), attributes);
    }
    let shown = said(alloc, text.as_str())?;
    let name = name(alloc, attribute)?;
    format!(in alloc; "`{shown}` is no value of {name}")
}

/// What is said of the value of that number of a line.
fn value_in_line(
    alloc: Global,
    line: &[u8],
    attribute: &DeclaredAttribute,
    number: usize,
    attributes: &[DeclaredAttribute],
) -> Result<String, AllocError> {
    let mut scratch = Scratch::new(alloc);
    if let Some(json) = read_json(alloc, line, &mut scratch)? {
        if let Some(values) = values_at(&json) {
            if let Some(value) = values.get(number) {
                return value_told(alloc, attribute, value, attributes);
            }
        }
    }
    name(alloc, attribute)
}

/// What a name of a category is called.
fn word(category: &str) -> &'static str {
    if category == ACTION {
        "action"
    } else if category == RESOURCE {
        "resource"
    } else {
        "person"
    }
}

/// That a name isn't listed, and which is near.
fn unlisted_sentence(
    alloc: Global,
    wanted: &ListedName,
    listed: &Listed,
) -> Result<String, AllocError> {
    let word = word(wanted.category.as_str());
    let name = said(alloc, wanted.name.as_str())?;
    match listed.nearest(alloc, wanted)? {
        None => format!(in alloc; "no {word} `{name}` is listed"),
        Some(near) => {
            let near = near.as_str().escape_debug();
            format!(in alloc; "no {word} `{name}` is listed; did you mean `{near}`?")
        }
    }
}

/// The command whose word is nearest to one that there isn't, if one is near.
fn near_command(
    alloc: Global,
    wanted: &str,
    commands: &[&str],
) -> Result<Option<Text>, AllocError> {
    let mut candidates = Candidates::new(alloc, wanted);
    for command in commands {
        candidates.take(alloc, command)?;
    }
    candidates.nearest(alloc)
}

/// That there is no such command, and which is near.
fn unknown_sentence(alloc: Global, wanted: &str, commands: &[&str]) -> Result<String, AllocError> {
    let shown = said(alloc, wanted)?;
    match near_command(alloc, wanted, commands)? {
        None => format!(in alloc; "there is no command `{shown}`"),
        Some(near) => {
            let near = near.as_str();
            format!(in alloc; "there is no command `{shown}`; did you mean `{near}`?")
        }
    }
}

/// That a name may not be listed.
fn bad_name_sentence(alloc: Global, named: &ListedName) -> Result<String, AllocError> {
    let word = word(named.category.as_str());
    match named.name.as_str().len() {
        0 => format!(in alloc; "the name of the {word} is empty; it has 1 to 256 bytes"),
        length => {
            format!(in alloc; "the name of the {word} has {length} bytes; it has 1 to 256 bytes")
        }
    }
}

/// The attribute of a row, in words.
fn row_name(alloc: Global, row: &SetRow) -> Result<String, AllocError> {
    let issuer = match &row.issuer {
        None => None,
        Some(issuer) => Some(issuer.copy(alloc)?),
    };
    let attribute = DeclaredAttribute {
        category: row.entity.category.copy(alloc)?,
        id: row.attribute.copy(alloc)?,
        datatype: row.datatype,
        issuer,
        values: None,
    };
    name(alloc, &attribute)
}

/// That a line says what the line of that number says already.
fn again_sentence(alloc: Global, claim: &Claim, number: usize) -> Result<String, AllocError> {
    match claim {
        Claim::Listed(named) => {
            let word = word(named.category.as_str());
            let name = said(alloc, named.name.as_str())?;
            format!(in alloc; "the {word} `{name}` is listed already, by line {number}")
        }
        Claim::Values(row) => {
            let attribute = row_name(alloc, row)?;
            let entity = said(alloc, row.entity.name.as_str())?;
            format!(in alloc;
                "{attribute} is set again for `{entity}`, and not what line {number} sets counts"
            )
        }
    }
}

/// That a line isn't JSON.
fn no_json_sentence(line: &[u8]) -> &'static str {
    if is_merge_marker(line) {
        "a merge left its marker here: of these lines two versions stand, keep one"
    } else {
        "it isn't JSON"
    }
}

impl FaultyLine {
    /// What is said of the line.
    fn sentence(
        &self,
        alloc: Global,
        line: &[u8],
        commands: &[&str],
        attributes: &[DeclaredAttribute],
        listed: &Listed,
    ) -> Result<String, AllocError> {
        match &self.fault {
            LineFault::NotJson => String::from_str(alloc, no_json_sentence(line)),
            LineFault::NoCommand => {
                String::from_str(alloc, "it is no command: an object with its word at `do`")
            }
            LineFault::Unknown(word) => unknown_sentence(alloc, word.as_str(), commands),
            LineFault::NoName => String::from_str(alloc, "it wants a name, a text at `name`"),
            LineFault::BadName(named) => bad_name_sentence(alloc, named),
            LineFault::Form => String::from_str(
                alloc,
                "it wants a category, an entity, an attribute, a type, maybe an issuer, and values",
            ),
            LineFault::Undeclared(attribute) => undeclared_sentence(alloc, attribute, attributes),
            LineFault::Value(attribute, number) => {
                value_in_line(alloc, line, attribute, *number, attributes)
            }
            LineFault::Unlisted(name) => unlisted_sentence(alloc, name, listed),
            LineFault::Again(claim, number) => again_sentence(alloc, claim, *number),
        }
    }

    /// One line without its end: the number of the line, and what is wrong with it. The text of the line, the commands,
    /// the attributes and the names are to be those by which it was found.
    ///
    /// # Errors
    ///
    /// `AllocError` if memory runs out.
    ///
    /// Its contract is an equation but for memory.
    pub fn told(
        &self,
        alloc: Global,
        line: &[u8],
        commands: &[&str],
        attributes: &[DeclaredAttribute],
        listed: &Listed,
    ) -> Result<String, AllocError>
        ensures { IfOk result (λ s. is_one_line (string_bytes s) ≡ true) }
    {
        let sentence = self.sentence(alloc, line, commands, attributes, listed)?;
        let number = self.number;
        let said = format!(in alloc; "line {number}: {sentence}")?;
        one_line(alloc, said.as_str())
    }
}
