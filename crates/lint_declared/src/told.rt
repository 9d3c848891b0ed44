//! What is said of what isn't declared in a document, and of a file that declares attributes.

ghost use Rattle.std.specs.Prelude.{◌≡◌, IfOk, string_bytes, true};
ghost use Rattle.lint_declared.specs.Attributes.{pointer_of};
ghost use Rattle.lint_declared.specs.Saying.{IsToldAt};
ghost use Rattle.lint_messages.specs.Told.{is_one_line};

use crate::attribute::DeclaredAttribute;
use crate::designator::Undeclared;
use crate::fault::{AttributeFault, AttributesFault};
use crate::nearest::{nearest, nearest_value};
use crate::said::{hint, name, said};
use lint_messages::{one_line, placed};
use std::alloc::{AllocError, Global};

/// A sentence on a place, and its line and column if they are known.
fn told_at(
    alloc: Global,
    pointer: &str,
    position: Option<(usize, usize)>,
    sentence: &str,
) -> Result<String, AllocError>
    ensures { IfOk result (λ s. IsToldAt pointer.now (string_bytes s)) }
{
    match position {
        None => placed(alloc, pointer, sentence),
        Some((line, column)) => {
            let said = format!(in alloc; "line {line}, column {column}: {sentence}")?;
            placed(alloc, pointer, said.as_str())
        }
    }
}

/// That an attribute isn't declared, and what is in its place.
pub(crate) fn undeclared_sentence(
    alloc: Global,
    wanted: &DeclaredAttribute,
    attributes: &[DeclaredAttribute],
) -> Result<String, AllocError> {
    let name = name(alloc, wanted)?;
    match nearest(alloc, wanted, attributes)? {
        None => format!(in alloc; "no attribute {name} is declared"),
        Some(declared) => {
            let hint = hint(alloc, wanted, declared)?;
            format!(in alloc; "no attribute {name} is declared; {hint}")
        }
    }
}

/// That a value isn't among those that are listed for an attribute, and which is near.
pub(crate) fn value_sentence(
    alloc: Global,
    wanted: &DeclaredAttribute,
    text: &str,
    attributes: &[DeclaredAttribute],
) -> Result<String, AllocError> {
    let name = name(alloc, wanted)?;
    let shown = said(alloc, text)?;
    match nearest_value(alloc, wanted, text, attributes)? {
        None => format!(in alloc; "`{shown}` isn't among the values of {name}"),
        Some(near) => {
            let near = near.as_str().escape_debug();
            format!(in alloc; "`{shown}` isn't among the values of {name}; did you mean `{near}`?")
        }
    }
}

impl Undeclared {
    /// What is said of it.
    fn sentence(
        &self,
        alloc: Global,
        attributes: &[DeclaredAttribute],
    ) -> Result<String, AllocError> {
        match (&self.asked, &self.value) {
            (Some(wanted), Some(value)) => {
                let text = value.text(alloc)?;
                value_sentence(alloc, wanted, text.as_str(), attributes)
            }
            (Some(wanted), None) => undeclared_sentence(alloc, wanted, attributes),
            (None, _) => {
                String::from_str(alloc, "the designator has no category, id or data type")
            }
        }
    }

    /// One line without its end: the place of the designator or of the literal, as a JSON pointer, the line and the
    /// column if they are known, which attribute isn't declared or which value isn't listed, and the nearest that is,
    /// if one is near.
    ///
    /// # Errors
    ///
    /// `AllocError` if memory runs out.
    ///
    /// Its contract leaves open: the words behind the place, line and column, and which attribute or value is named as
    /// the nearest.
    pub fn told(
        &self,
        alloc: Global,
        attributes: &[DeclaredAttribute],
        position: Option<(usize, usize)>,
    ) -> Result<String, AllocError>
        ensures { IfOk result (λ s. IsToldAt self.now.pointer (string_bytes s)) }
    {
        let sentence = self.sentence(alloc, attributes)?;
        told_at(alloc, self.pointer.as_str(), position, sentence.as_str())
    }
}

impl AttributeFault {
    /// What is expected.
    fn sentence(self) -> &'static str {
        match self {
            AttributeFault::Form => {
                "an object with Category, AttributeId, DataType and maybe Issuer and Values is expected"
            }
            AttributeFault::Category => "a category is expected, a text of 1 to 256 bytes",
            AttributeFault::AttributeId => "an id is expected, a text of 1 to 256 bytes",
            AttributeFault::DataType => "the name of a data type is expected, as string or date",
            AttributeFault::Issuer => "an issuer is expected, a text of 1 to 256 bytes",
            AttributeFault::Values => "a list of values is expected",
            AttributeFault::Value(_) => "a value of the attribute's type is expected",
        }
    }
}

/// The keys of a declaration.
const KEYS: &str = "AttributeId, Category, DataType, Issuer and Values";

/// A key as a step of a JSON pointer (RFC 6901).
fn escaped(alloc: Global, key: &str) -> Result<String, AllocError> {
    let mut step = String::new(alloc);
    for character in key.chars() {
        match character {
            '~' => step.push_str("~0")?,
            '/' => step.push_str("~1")?,
            other => step.push(other)?,
        }
    }
    Ok(step)
}

/// Line and column as they stand in front of a sentence, if they are known.
fn position_text(alloc: Global, position: Option<(usize, usize)>) -> Result<String, AllocError> {
    match position {
        None => Ok(String::new(alloc)),
        Some((line, column)) => format!(in alloc; "line {line}, column {column}: "),
    }
}

impl AttributesFault {
    /// One line without its end: the place of the fault, as a JSON pointer, the line and the column if they are
    /// known, and what is expected there.
    ///
    /// # Errors
    ///
    /// `AllocError` if memory runs out.
    ///
    /// Its contract leaves open: the words behind the place, line and column.
    pub fn told(self, alloc: Global, position: Option<(usize, usize)>) -> Result<String, AllocError>
        ensures { IfOk result (λ s. IsToldAt (pointer_of self) (string_bytes s)) }
    {
        let pointer = self.pointer(alloc)?;
        let sentence = match self {
            AttributesFault::NoList => {
                "an object is expected whose only key is Attributes, with a list there"
            }
            AttributesFault::Member(_, fault) => fault.sentence(),
        };
        told_at(alloc, pointer.as_str(), position, sentence)
    }

    /// One line without its end where a key is wrong that may not stand there: the place of the key, and which keys
    /// may.
    ///
    /// # Errors
    ///
    /// `AllocError` if memory runs out.
    ///
    /// Its contract is an equation but for memory.
    pub fn told_of_key(
        self,
        alloc: Global,
        key: &str,
        position: Option<(usize, usize)>,
    ) -> Result<String, AllocError>
        ensures { IfOk result (λ s. is_one_line (string_bytes s) ≡ true) }
    {
        let step = escaped(alloc, key)?;
        let step = step.as_str();
        let shown = said(alloc, key)?;
        let at = position_text(alloc, position)?;
        let at = at.as_str();
        let told = match self {
            AttributesFault::NoList => {
                format!(in alloc; "/{step}: {at}no key `{shown}` is known here, only Attributes")?
            }
            AttributesFault::Member(number, _) => format!(in alloc;
                "/Attributes/{number}/{step}: {at}no key `{shown}` is known here, only {KEYS}"
            )?,
        };
        one_line(alloc, told.as_str())
    }
}
