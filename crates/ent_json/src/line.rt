//! The reading of a text.

ghost use Rattle.std.specs.Prelude.{◌≡◌, ◌<◌, ◌⊎◌, length, IfOk, IsTrue, OnErr, option_map};
ghost use Rattle.json.specs.Lex.{tokens};
ghost use Rattle.json.specs.Reads.{opens};
ghost use Rattle.json.specs.Scratch.{room};
ghost use Rattle.json.specs.Value.{value_view};
ghost use Rattle.ent_json.specs.Content.{content_of};
ghost use Rattle.ent_json.specs.Line.{data_of};

use crate::whole::is_whole;
use json::{Error, Reader, Scratch, Value};
use std::alloc::{AllocError, Global};

/// How deep arrays and objects may nest, as in `serde_json`.
const MAX_DEPTH: usize = 127;

/// The value that a text is, as `serde_json` reads it, or nothing where it is none. Strings without escapes are
/// borrowed from the text, others from the scratch.
///
/// # Errors
///
/// Where memory runs out, which is asked for only where the scratch has no room for the text, or where an array or an
/// object begins.
///
/// Its contract leaves open: what the scratch holds, which the next call writes over.
pub fn read_json<'a>(
    alloc: Global,
    text: &'a [u8],
    scratch: &'a mut Scratch,
) -> Result<Option<Value<'a>>, AllocError>
    ensures read { IfOk result (λ o. option_map (λ v. content_of (value_view v)) o ≡ data_of text.now) }
    ensures memory { OnErr result (IsTrue (opens (tokens text.now)) ⊎ (room scratch.old < length text.now)) }
{
    let Ok(text) = simdutf8::compat::from_utf8(text) else {
        return Ok(None);
    };
    let mut reader = Reader::new(text, scratch)?;
    match Value::read(alloc, &mut reader, MAX_DEPTH) {
        Ok(value) => {
            if reader.next().is_none() && is_whole(&value) {
                Ok(Some(value))
            } else {
                Ok(None)
            }
        }
        Err(Error::OutOfMemory) => Err(AllocError),
        Err(_) => Ok(None),
    }
}
