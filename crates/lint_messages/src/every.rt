//! What is told of a document that is refused, with all its faults.

ghost use Rattle.std.specs.Prelude.{◌≡◌, Err, IfOk, None, map, string_bytes};
ghost use Rattle.ent_json.specs.Line.{data_of};
ghost use Rattle.lint_places.specs.Views.{fault_at};
ghost use Rattle.ent_polform.specs.Form.{document_of};
ghost use Rattle.lint_messages.specs.Told.{AreExplained, ArePlaced, AreTold, IsPlaced};

use crate::refused::{explain_text, placed, sentence_at};
use ent_json::{JsonTree, read_json};
use ent_polform::read_document;
use ent_policy::{CheckFault, DocFault};
use json::Scratch;
use lint_places::{Faulty, places_of};
use std::alloc::{AllocError, Global};

/// What is told of a document with all its faults.
#[derive(Drop)]
pub struct ExplainedFaults {
    /// A line for each fault: that of the first one as it is told alone, and then those of the others.
    pub lines: Vec<String>,
    /// Whether the search ended before it came to the end of the document, so that there may be more faults.
    pub is_cut: bool,
}

/// What is told of a fault: the JSON pointer of its place, and what is wrong there.
fn line_of<J: JsonTree>(
    alloc: Global,
    text: &[u8],
    faulty: &Faulty<'_, J>,
) -> Result<String, AllocError>
    ensures { IfOk result (λ s. IsPlaced (string_bytes faulty.now.place.pointer) (string_bytes s)) }
{
    let sentence = sentence_at(alloc, text, &faulty.place, faulty.fault)?;
    placed(alloc, faulty.place.pointer.as_str(), sentence.as_str())
}

/// What is told of some faults, one line each.
fn lines_of<J: JsonTree>(
    alloc: Global,
    text: &[u8],
    faults: &[Faulty<'_, J>],
) -> Result<Vec<String>, AllocError>
    ensures { IfOk result (λ v. ArePlaced (map (fault_at J.content) faults.now) (map string_bytes v.items)) }
{
    let mut lines = Vec::with_capacity(alloc, faults.len())?;
    for faulty in faults {
        lines.push(line_of(alloc, text, faulty)?)?;
    }
    Ok(lines)
}

/// What is told of a document with all its faults, by the first of them. The text is to be the one of which the JSON
/// was read: line and column rest on that.
///
/// # Errors
///
/// `AllocError` if memory runs out.
///
/// Its contract leaves open: the sentences, lines and columns, whether the search was cut, and which faults are told
/// behind the first.
pub(crate) fn explain_faults<J: JsonTree>(
    alloc: Global,
    text: &[u8],
    json: &J,
    fault: DocFault,
) -> Result<ExplainedFaults, AllocError>
    requires { document_of (J.content json.now) ≡ Err fault }
    ensures { IfOk result (λ e. AreTold fault (J.content json.now) (map string_bytes e.lines.items)) }
{
    let faults = places_of(alloc, json, fault)?;
    let lines = lines_of(alloc, text, faults.places.as_slice())?;
    let is_cut = faults.is_cut;
    Ok(ExplainedFaults { lines, is_cut })
}

/// What is told of a text that isn't JSON, as the only fault.
fn explain_only(alloc: Global, text: &[u8]) -> Result<ExplainedFaults, AllocError>
    ensures { IfOk result (λ e. AreExplained None (map string_bytes e.lines.items)) }
{
    let mut lines = Vec::new(alloc);
    lines.push(explain_text(alloc, text)?)?;
    let is_cut = false;
    Ok(ExplainedFaults { lines, is_cut })
}

/// What is told of the text of a document with all its faults, one line each; nothing where it is a document that can
/// be used. The first line has the place that `explain` tells.
///
/// # Errors
///
/// `AllocError` if memory runs out.
///
/// Its contract leaves open: the sentences, lines and columns, whether the search was cut, and which faults are told
/// behind the first.
pub fn explain_all(alloc: Global, text: &[u8]) -> Result<ExplainedFaults, AllocError>
    ensures { IfOk result (λ e. AreExplained (data_of text.now) (map string_bytes e.lines.items)) }
{
    let mut scratch = Scratch::new(alloc);
    let Some(json) = read_json(alloc, text, &mut scratch)? else {
        return explain_only(alloc, text);
    };
    match read_document(alloc, &json) {
        Ok(_) => Ok(ExplainedFaults {
            lines: Vec::new(alloc),
            is_cut: false,
        }),
        Err(CheckFault::Doc(fault)) => explain_faults(alloc, text, &json, fault),
        Err(CheckFault::Memory) => Err(AllocError),
    }
}
