//! What is told of a document that is refused.

ghost use Rattle.std.specs.Prelude.{◌≡◌, Err, IfOk, option_map, string_bytes, true};
ghost use Rattle.ent_json.specs.Line.{data_of};
ghost use Rattle.ent_polform.specs.Form.{document_of};
ghost use Rattle.lint_messages.specs.Told.{IsExplained, IsPlaced, IsTold, is_one_line, shown};

use crate::asked::{FaultPlace, FoundFault};
use crate::line::one_line;
use crate::not_json::text_sentence;
use crate::position::{position_of, text_at};
use crate::sentence::found;
use ent_json::{JsonTree, read_json};
use ent_polform::read_document;
use ent_policy::{CheckFault, DocFault};
use json::Scratch;
use lint_places::{Part, Place, place_of};
use std::alloc::{AllocError, Global};

/// A JSON pointer without its last step, and that step.
fn last_step(pointer: &str) -> (&str, &str) {
    pointer.rsplit_once('/').unwrap_or(("", pointer))
}

/// What is wrong at a place, behind its line and its column in the text of the document.
pub(crate) fn sentence_at<J: JsonTree>(
    alloc: Global,
    text: &[u8],
    place: &Place<'_, J>,
    fault: DocFault,
) -> Result<String, AllocError> {
    let pointer = place.pointer.as_str();
    let (around, key) = last_step(pointer);
    let list = match place.part {
        Part::Definition => around,
        _ => pointer,
    };
    let asked = FaultPlace {
        alloc,
        part: place.part,
        key,
        json: place.json,
        definitions: place.scope.definitions,
        text: text_at(alloc, text, pointer)?,
        list: text_at(alloc, text, list)?,
    };
    let FoundFault {
        sentence,
        text: there,
    } = found(&asked, fault)?;
    let position = position_of(text, there);
    let (line, column) = (position.line, position.column);
    format!(in alloc; "line {line}, column {column}: {sentence}")
}

/// A JSON pointer as it is shown: that of a whole document is empty, and shown as a slash.
pub(crate) fn shown(pointer: &str) -> &str
    ensures { result.now ≡ shown pointer.now }
{
    if pointer.is_empty() { "/" } else { pointer }
}

/// A sentence on one line, behind the JSON pointer of its place.
///
/// # Errors
///
/// `AllocError` if memory runs out.
///
/// Its contract leaves open: the words behind the place.
pub fn placed(alloc: Global, pointer: &str, sentence: &str) -> Result<String, AllocError>
    ensures { IfOk result (λ s. IsPlaced pointer.now (string_bytes s)) }
{
    let rest = one_line(alloc, sentence)?;
    let mut line = String::from_str(alloc, shown(pointer))?;
    line.push_str(": ")?;
    line.push_str(rest.as_str())?;
    Ok(line)
}

/// What is told of a document by its first fault: the JSON pointer (RFC 6901) of the place of the fault, `/` for a whole
/// document, the line and the column of what is wrong, and what it is. The text is to be the one of which the JSON was
/// read: line and column rest on that.
///
/// # Errors
///
/// `AllocError` if memory runs out.
///
/// Its contract leaves open: the sentence, its line and its column, and which of several places of the fault.
pub(crate) fn explain_document<J: JsonTree>(
    alloc: Global,
    text: &[u8],
    json: &J,
    fault: DocFault,
) -> Result<String, AllocError>
    requires { document_of (J.content json.now) ≡ Err fault }
    ensures { IfOk result (λ s. IsTold fault (J.content json.now) (string_bytes s)) }
{
    let place = place_of(alloc, json, fault)?;
    let sentence = sentence_at(alloc, text, &place, fault)?;
    placed(alloc, place.pointer.as_str(), sentence.as_str())
}

/// What is told of a text that isn't JSON, on one line: the line and the column of what is wrong, and what it is.
///
/// # Errors
///
/// `AllocError` if memory runs out.
///
/// Its contract is an equation but for memory.
pub fn explain_text(alloc: Global, text: &[u8]) -> Result<String, AllocError>
    ensures { IfOk result (λ s. is_one_line (string_bytes s) ≡ true) }
{
    let sentence = text_sentence(alloc, text)?;
    one_line(alloc, sentence.as_str())
}

/// What is told of the text of a document, on one line; nothing where it is a document that can be used.
///
/// # Errors
///
/// `AllocError` if memory runs out.
///
/// Its contract leaves open: the sentence, its line and its column, and which of several places of the fault.
pub fn explain(alloc: Global, text: &[u8]) -> Result<Option<String>, AllocError>
    ensures { IfOk result (λ o. IsExplained (data_of text.now) (option_map string_bytes o)) }
{
    let mut scratch = Scratch::new(alloc);
    let Some(json) = read_json(alloc, text, &mut scratch)? else {
        return Ok(Some(explain_text(alloc, text)?));
    };
    match read_document(alloc, &json) {
        Ok(_) => Ok(None),
        Err(CheckFault::Doc(fault)) => Ok(Some(explain_document(alloc, text, &json, fault)?)),
        Err(CheckFault::Memory) => Err(AllocError),
    }
}
