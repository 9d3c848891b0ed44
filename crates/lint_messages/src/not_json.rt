//! What is wrong with a text that isn't JSON.

use crate::merge::marker_in;
use crate::position::position_behind;
use crate::scan::too_deep_at;
use crate::words::quoted;
use serde_json::{Error, Value};
use std::alloc::{AllocError, Global};

/// What is wrong with a text, and behind how many bytes.
#[derive(Drop)]
pub(crate) struct JsonFault {
    pub(crate) sentence: String,
    pub(crate) behind: usize,
}

impl JsonFault {
    /// What is wrong behind that many bytes.
    fn new(alloc: Global, sentence: &str, behind: usize) -> Result<JsonFault, AllocError> {
        let sentence = String::from_str(alloc, sentence)?;
        Ok(JsonFault { sentence, behind })
    }
}

/// What is told of a text that isn't JSON, where its place stands before what is wrong.
pub(crate) fn text_sentence(alloc: Global, text: &[u8]) -> Result<String, AllocError> {
    let JsonFault { sentence, behind } = found_in(alloc, text)?;
    let position = position_behind(text.get(..behind).unwrap_or(text));
    let (line, column) = (position.line, position.column);
    format!(in alloc; "line {line}, column {column}: {sentence}")
}

/// What is wrong with a text that isn't JSON.
fn found_in(alloc: Global, text: &[u8]) -> Result<JsonFault, AllocError> {
    if let Some(sentence) = encoding_sentence(text) {
        return JsonFault::new(alloc, sentence, 0);
    }
    if let Some(behind) = marker_in(text) {
        let sentence = "a merge left its marker here: of these lines two versions stand, keep one";
        return JsonFault::new(alloc, sentence, behind);
    }
    match str::from_utf8(text) {
        Ok(text) => syntax_cause(alloc, text),
        Err(fault) => JsonFault::new(alloc, "the bytes here aren't UTF-8", fault.valid_up_to()),
    }
}

/// What is wrong with the whole of a text, by how it begins.
fn encoding_sentence(text: &[u8]) -> Option<&'static str> {
    if text.trim_ascii().is_empty() {
        return Some("the file is empty");
    }
    if text.starts_with(&[0xEF, 0xBB, 0xBF]) {
        return Some("the file begins with a byte order mark; save it as UTF-8 without one");
    }
    let front = text.get(..4).unwrap_or(text);
    if text.starts_with(&[0xFE, 0xFF]) || text.starts_with(&[0xFF, 0xFE]) || front.contains(&0) {
        return Some("the file is UTF-16 or UTF-32; save it as UTF-8");
    }
    let front = text.trim_ascii_start();
    if front.starts_with(b"<") && !front.starts_with(b"<<<<<<<") {
        return Some("the file is XML; a document is written as JSON here");
    }
    None
}

/// What is wrong with the syntax of a text.
fn syntax_cause(alloc: Global, text: &str) -> Result<JsonFault, AllocError> {
    if let Some(behind) = too_deep_at(text.as_bytes()) {
        let sentence = "objects and lists stand in each other more than 127 levels deep here";
        return JsonFault::new(alloc, sentence, behind);
    }
    match Value::from_str(alloc, text) {
        Ok(_) => JsonFault::new(alloc, "the file isn't JSON", 0),
        Err(fault) => {
            if fault.is_memory() {
                return Err(AllocError);
            }
            fault_cause(alloc, text, &fault)
        }
    }
}

/// What is wrong, by the place at which reading ended.
fn fault_cause(alloc: Global, text: &str, fault: &Error) -> Result<JsonFault, AllocError> {
    let end = text.trim_ascii_end().len();
    if fault.is_eof() {
        return JsonFault::new(alloc, "the file ends before its JSON does", end);
    }
    let behind = bytes_before(text.as_bytes(), fault.line(), fault.column());
    let Some((before, rest)) = text.split_at_checked(behind) else {
        return JsonFault::new(alloc, "the file isn't JSON from here on", behind);
    };
    let Some(first) = rest.chars().next() else {
        return JsonFault::new(alloc, "the file ends before its JSON does", end);
    };
    let sentence = if is_out_of_range(alloc, fault)? {
        String::from_str(alloc, "the number before this is too large")?
    } else {
        stop_sentence(alloc, before.trim_ascii_end(), first, rest)?
    };
    Ok(JsonFault { sentence, behind })
}

/// Whether a number is out of range.
fn is_out_of_range(alloc: Global, fault: &Error) -> Result<bool, AllocError> {
    Ok(
        fault
            .to_string(alloc)?
            .as_str()
            .starts_with("number out of range"),
    )
}

/// What is wrong where reading stopped: what stands before that place, and the first character of the rest.
fn stop_sentence(
    alloc: Global,
    before: &str,
    first: char,
    rest: &str,
) -> Result<String, AllocError> {
    if before.ends_with(',') && matches!(first, '}' | ']') {
        return format!(in alloc; "no comma may stand before `{first}`");
    }
    match Value::from_str(alloc, before) {
        Ok(_) => {
            return String::from_str(
                alloc,
                "something stands behind the document; a file has one",
            );
        }
        Err(fault) => {
            if fault.is_memory() {
                return Err(AllocError);
            }
        }
    }
    if before.ends_with(['"', '}', ']']) && matches!(first, '"' | '{' | '[') {
        return format!(in alloc; "a comma or a colon is missing before `{first}`");
    }
    unexpected(alloc, rest)
}

/// That the text isn't expected there.
fn unexpected(alloc: Global, rest: &str) -> Result<String, AllocError> {
    let mut word = String::new(alloc);
    for character in rest.chars() {
        if !character.is_alphanumeric() {
            break;
        }
        word.push(character)?;
    }
    if word.is_empty() {
        for character in rest.chars().take(1) {
            word.push(character)?;
        }
    }
    let word = quoted(alloc, word.as_str())?;
    format!(in alloc; "the file isn't JSON from here on, where {word} stands")
}

/// How many bytes of a text stand before that byte of that line.
fn bytes_before(text: &[u8], line: usize, column: usize) -> usize {
    let mut seen = 1usize;
    let mut start = 0usize;
    for (n, byte) in text.iter().enumerate() {
        if seen < line && *byte == b'\n' {
            seen = seen.saturating_add(1);
            start = n + 1;
        }
    }
    start.saturating_add(column).saturating_sub(1)
}
