//! Whether a line can carry a document.

use ent_wire::LINE_LIMIT;

/// How many bytes stand around the document in `{"do":"policy.add","document":..}`.
const AROUND: usize = 31;

/// Whether a byte is white space between the parts of JSON.
fn is_space(byte: u8) -> bool {
    matches!(byte, b' ' | b'\t' | b'\r' | b'\n')
}

/// How many bytes a JSON text has without white space between its parts.
fn compact_length(text: &[u8]) -> usize {
    let mut length = 0usize;
    let mut is_text = false;
    let mut is_escaped = false;
    for byte in text {
        if is_text || !is_space(*byte) {
            length = length.saturating_add(1);
        }
        if is_escaped {
            is_escaped = false;
        } else if *byte == b'\\' {
            is_escaped = is_text;
        } else if *byte == b'"' {
            is_text = !is_text;
        }
    }
    length
}

/// How many bytes the line that stores a document in the first module has too many, where the document is written
/// without white space.
pub(crate) fn line_excess(document: &[u8]) -> usize {
    compact_length(document)
        .saturating_add(AROUND)
        .saturating_sub(LINE_LIMIT)
}
