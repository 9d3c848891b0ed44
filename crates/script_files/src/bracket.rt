//! What stands between « and ».

ghost use Rattle.std.specs.Prelude.{◌≡◌, ◌++◌, [], OnOk, IfOk, is_some, map, unwrap_or};
ghost use Rattle.script_files.specs.Brackets.{byte_of, copies, copy, digit_of, inside_of};
ghost use Rattle.script_files.specs.Cut.{cut};
ghost use Rattle.script_files.specs.Numbers.{number_mark};

use crate::cut::cut;
use crate::number::{NUMBER, leading_number, push_numbered};
use std::alloc::{AllocError, Global};

/// The value of a hexadecimal digit.
fn digit_of(byte: u8) -> Option<u8>
    ensures { result ≡ digit_of byte }
{
    match byte {
        b'0'..=b'9' => Some(byte - b'0'),
        b'A'..=b'F' => Some(byte - b'A' + 10),
        _ => None,
    }
}

/// The byte that two hexadecimal digits write, other than a newline.
fn byte_of(inside: &[u8]) -> Option<u8>
    ensures { result ≡ byte_of inside.now }
{
    let [high, low] = inside else {
        return None;
    };
    let byte = digit_of(*high)? * 16 + digit_of(*low)?;
    if byte == b'\n' { None } else { Some(byte) }
}

/// Writes the copy of a text at a time, of which these are the parts between its №, with a separator in front but for the
/// first time.
fn push_copy(
    time: u32,
    separator: &[u8],
    parts: &[&[u8]],
    out: &mut Vec<u8>,
) -> Result<(), AllocError>
    ensures { OnOk result (out.new.items ≡ out.old.items ++ copy separator.now (map (λ p. p.now) parts.now) time) }
{
    if time > 0 {
        out.extend_from_slice(separator)?;
    }
    push_numbered(time, parts, out)
}

/// Writes so many copies of a text, a separator in front of each but the first.
fn push_copies(
    alloc: Global,
    count: u32,
    separator: &[u8],
    text: &[u8],
    out: &mut Vec<u8>,
) -> Result<(), AllocError>
    ensures { OnOk result (out.new.items ≡ out.old.items ++ copies count separator.now (cut number_mark text.now)) }
{
    let parts = cut(alloc, NUMBER, text)?;
    for time in 0..count {
        push_copy(time, separator, parts.as_slice(), out)?;
    }
    Ok(())
}

/// Writes what the text between « and » stands for, if it has one of the forms, and says whether it has.
pub(crate) fn push_inside(
    alloc: Global,
    inside: &[u8],
    out: &mut Vec<u8>,
) -> Result<bool, AllocError>
    ensures formed { IfOk result (λ formed. formed ≡ is_some (inside_of inside.now)) }
    ensures written { OnOk result (out.new.items ≡ out.old.items ++ unwrap_or (inside_of inside.now) []) }
{
    if let Some(byte) = byte_of(inside) {
        out.push(byte)?;
        return Ok(true);
    }
    match leading_number(inside) {
        Some((count, [b'*', text @ ..])) => push_copies(alloc, count, b"", text, out)?,
        Some((count, [b',', text @ ..])) => push_copies(alloc, count, b",", text, out)?,
        _ => return Ok(false),
    }
    Ok(true)
}
