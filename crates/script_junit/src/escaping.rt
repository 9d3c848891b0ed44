//! Bytes as they stand in XML.

ghost use Rattle.std.specs.Prelude.{◌≡◌, ◌++◌, IfOk, OnOk, string_bytes};
ghost use Rattle.std.specs.List.{flat_map};
ghost use Rattle.std.specs.Str.{chars};
ghost use Rattle.script_junit.specs.Escaped.{escaped, escaped_char, is_written};

use std::alloc::{AllocError, Global};

/// Whether XML has a character; one that it has no other form for.
fn is_written(character: char) -> bool
    ensures { result ≡ is_written character }
{
    character >= ' ' && character != '\u{FFFE}' && character != '\u{FFFF}'
}

/// Puts a character behind others, as it stands in XML.
fn push_escaped(character: char, escaped: &mut String) -> Result<(), AllocError>
    ensures { OnOk result (string_bytes escaped.new ≡ string_bytes escaped.old ++ escaped_char character) }
{
    match character {
        '&' => escaped.push_str("&amp;"),
        '<' => escaped.push_str("&lt;"),
        '>' => escaped.push_str("&gt;"),
        '"' => escaped.push_str("&quot;"),
        '\t' => escaped.push_str("&#9;"),
        '\n' => escaped.push_str("&#10;"),
        '\r' => escaped.push_str("&#13;"),
        other if is_written(other) => escaped.push(other),
        _ => escaped.push('\u{FFFD}'),
    }
}

/// The characters of a text, as they stand in XML.
fn escaped_text(alloc: Global, text: &str) -> Result<String, AllocError>
    ensures { IfOk result (λ s. string_bytes s ≡ flat_map escaped_char (chars text.now)) }
{
    let mut escaped = String::new(alloc);
    for character in text.chars() {
        push_escaped(character, &mut escaped)?;
    }
    Ok(escaped)
}

/// Bytes as they stand in XML, in the text of an element or the value of an attribute.
#[tactic(auto, unfolding(crate::specs::Escaped::escaped))]
pub(crate) fn escaped(alloc: Global, text: &[u8]) -> Result<String, AllocError>
    ensures { IfOk result (λ s. string_bytes s ≡ escaped text.now) }
{
    let lossy = String::from_utf8_lossy(alloc, text)?;
    escaped_text(alloc, lossy.as_str())
}
