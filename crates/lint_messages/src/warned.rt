//! What is told of a document that may be stored, but isn't what its author may think.

ghost use Rattle.std.specs.Prelude.{◌≡◌, IfOk, string_bytes, true};
ghost use Rattle.std.specs.List.{list_all};
ghost use Rattle.lint_messages.specs.Told.{is_one_line};

use crate::behind::{LEVELS, note_behind};
use crate::line::one_line;
use crate::refused::shown;
use crate::twice::note_again;
use ent_json::read_json;
use json::Scratch;
use std::alloc::{AllocError, Global};

/// What is told at that pointer, on one line.
fn warning_of(alloc: Global, pointer: &str, sentence: &str) -> Result<String, AllocError>
    ensures { IfOk result (λ s. is_one_line (string_bytes s) ≡ true) }
{
    let place = shown(pointer);
    let line = format!(in alloc; "{place}: {sentence}")?;
    one_line(alloc, line.as_str())
}

/// What is told, with the pointers of its places.
fn found_in(alloc: Global, text: &[u8]) -> Result<Vec<(String, String)>, AllocError> {
    let mut told = Vec::new(alloc);
    let mut scratch = Scratch::new(alloc);
    let Some(json) = read_json(alloc, text, &mut scratch)? else {
        return Ok(told);
    };
    note_again(alloc, text, &mut told)?;
    note_behind(alloc, text, "", &json, LEVELS, &mut told)?;
    Ok(told)
}

/// What is told of the text of a document beside its faults, one line each: a key that stands again in an object, where
/// both stand, a rule behind one that always decides, and an obligation or an advice for an effect that its rule or its
/// policy never gives. Nothing is told of a text that isn't JSON, and of at most 16 keys.
///
/// # Errors
///
/// `AllocError` if memory runs out.
///
/// Its contract is an equation but for memory.
pub fn warnings(alloc: Global, text: &[u8]) -> Result<Vec<String>, AllocError>
    ensures { IfOk result (λ lines. list_all (λ line. is_one_line (string_bytes line)) lines.items ≡ true) }
{
    let found = found_in(alloc, text)?;
    let mut lines = Vec::with_capacity(alloc, found.len())?;
    for (pointer, sentence) in &found {
        lines.push(warning_of(alloc, pointer.as_str(), sentence.as_str())?)?;
    }
    Ok(lines)
}
