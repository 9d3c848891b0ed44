//! What is said of a document that can be used, but isn't what its author may think.

ghost use Rattle.std.specs.Prelude.{◌≡◌, IfOk, map, string_bytes, take};
ghost use Rattle.lint_messages.specs.Told.{IsPlaced};
ghost use Rattle.lint_meaning.specs.Warnings.{warnings_of};
ghost use Rattle.cli_check.specs.Meant.{AreToldOf};

use ent_policy::{Document, Effect};
use lint_meaning::{Meaning, Warning, warnings};
use lint_messages::{Places, placed, shortened};
use std::alloc::{AllocError, Global};

/// The most that is said of one document.
const MOST_TOLD: usize = 32;

/// The word of an effect.
fn word(effect: Effect) -> &'static str {
    match effect {
        Effect::Permit => "Permit",
        Effect::Deny => "Deny",
    }
}

/// What is said of a part.
fn sentence(alloc: Global, meaning: &Meaning) -> Result<String, AllocError> {
    match meaning {
        Meaning::Unused => String::from_str(alloc, "no expression names this variable"),
        Meaning::Fixed => String::from_str(
            alloc,
            "this condition asks for nothing, so it is the same for each request",
        ),
        Meaning::Overruled(id) => {
            let shown = shortened(alloc, id.as_str())?;
            let id = shown.as_str();
            format!(in alloc;
                "the rule `{id}` has the same target and condition, so this one never decides"
            )
        }
        Meaning::Apart(number) => {
            format!(in alloc; "no value meets this and argument {number} of the same `and`")
        }
        Meaning::Least => String::from_str(alloc, "nothing is less than the literal here"),
        Meaning::Never(effect) => {
            let effect = word(*effect);
            format!(in alloc; "the set never gives {effect}, so this never comes")
        }
    }
}

/// A line on a part of a document, with its place, its line and its column.
fn line_of(alloc: Global, places: &mut Places<'_>, warning: &Warning) -> Result<String, AllocError>
    ensures { IfOk result (λ s. IsPlaced warning.now.pointer (string_bytes s)) }
{
    let pointer = warning.pointer.as_str();
    let position = places.line_and_column(pointer)?;
    let (line, column) = (position.line, position.column);
    let sentence = sentence(alloc, &warning.meaning)?;
    let sentence = sentence.as_str();
    let told = format!(in alloc; "line {line}, column {column}: {sentence}")?;
    placed(alloc, pointer, told.as_str())
}

/// The first 32, if there are more.
fn first(warnings: &[Warning]) -> &[Warning]
    ensures { result.now ≡ take 32 warnings.now }
{
    let count = MOST_TOLD.min(warnings.len());
    &warnings[..count]
}

/// A line on each of some parts.
fn lines_of(alloc: Global, text: &[u8], warnings: &[Warning]) -> Result<Vec<String>, AllocError>
    ensures { IfOk result (λ lines. AreToldOf warnings.now (map string_bytes lines.items)) }
{
    let mut places = Places::of(alloc, text);
    let mut lines = Vec::new(alloc);
    for warning in warnings {
        lines.push(line_of(alloc, &mut places, warning)?)?;
    }
    Ok(lines)
}

/// What is said of the parts of a document that may not be meant: a line for each of the first 32, in their order,
/// which begins with its place.
pub(crate) fn meant(
    alloc: Global,
    text: &[u8],
    document: &Document,
) -> Result<Vec<String>, AllocError>
    ensures { IfOk result (λ lines.
        AreToldOf (take 32 (warnings_of document.now)) (map string_bytes lines.items)) }
{
    let warnings = warnings(alloc, document)?;
    lines_of(alloc, text, first(warnings.as_slice()))
}
