//! Where a mark stands in a text.

ghost use Rattle.std.specs.Prelude.{◌≡◌, ◌<◌, IfOk, IfSome, length, map, option_map};
ghost use Rattle.script_files.specs.Cut.{cut, split_once};

use std::alloc::{AllocError, Global};

/// What stands before the first place of a mark in a text, and what stands behind it.
pub(crate) fn split_once<'t>(mark: &[u8], text: &'t [u8]) -> Option<(&'t [u8], &'t [u8])>
    ensures parts { option_map (λ p. (p.0.now, p.1.now)) result ≡ split_once mark.now text.now }
    ensures shorter { 0 < length mark.now → IfSome result (λ p. length p.1.now < length text.now) }
{
    for i in 0..text.len() {
        if let Some(behind) = text[i..].strip_prefix(mark) {
            return Some((&text[..i], behind));
        }
    }
    None
}

/// The parts of a text between the places where a mark stands.
pub(crate) fn cut<'t>(
    alloc: Global,
    mark: &[u8],
    text: &'t [u8],
) -> Result<Vec<&'t [u8]>, AllocError>
    requires { 0 < length mark.now }
    ensures { IfOk result (λ parts. map (λ p. p.now) parts.items ≡ cut mark.now text.now) }
{
    let mut parts = Vec::new(alloc);
    let mut rest = text;
    while let Some((front, behind)) = split_once(mark, rest) {
        parts.push(front)?;
        rest = behind;
    }
    parts.push(rest)?;
    Ok(parts)
}
