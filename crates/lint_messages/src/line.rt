//! Sentences on one line.

ghost use Rattle.std.specs.Prelude.{◌≡◌, IfOk, string_bytes, true};
ghost use Rattle.std.specs.List.{list_all};
ghost use Rattle.lint_messages.specs.Told.{is_printable, is_one_line};

use std::alloc::{AllocError, Global};

/// Whether a byte can be printed: it is no control character.
fn is_printable(byte: u8) -> bool
    ensures { result ≡ is_printable byte }
{
    byte >= 32 && byte != 127
}

/// Whether no byte of the text is a control character.
fn is_one_line(text: &str) -> bool
    ensures { result ≡ is_one_line text.now }
{
    text.as_bytes().iter().all(|byte| is_printable(*byte))
}

/// The text on one line: control characters, and those that change lines or their direction, are written as JSON
/// escapes them.
///
/// # Errors
///
/// `AllocError` if memory runs out.
///
/// Its contract is an equation but for memory.
pub fn one_line(alloc: Global, text: &str) -> Result<String, AllocError>
    ensures { IfOk result (λ s. is_one_line (string_bytes s) ≡ true) }
{
    let mut line = String::new(alloc);
    for character in text.chars() {
        let piece = shown(alloc, character)?;
        if is_one_line(piece.as_str()) {
            line.push_str(piece.as_str())?;
        }
    }
    Ok(line)
}

/// A character as it is shown.
fn shown(alloc: Global, character: char) -> Result<String, AllocError> {
    if is_hidden(character) {
        return format!(in alloc; "\\u{:04x}", character as u32);
    }
    let mut piece = String::new(alloc);
    piece.push(character)?;
    Ok(piece)
}

/// Whether a character isn't to be printed as it is: a control character, or one that changes lines or their direction.
fn is_hidden(character: char) -> bool {
    character.is_control()
        || matches!(character, '\u{2028}'..='\u{202E}' | '\u{2066}'..='\u{2069}' | '\u{FEFF}')
}
