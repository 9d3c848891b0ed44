//! Members of an object that is written straight into its text.

ghost use Rattle.std.specs.Prelude.{◌≡◌, [], ◌∷◌, ◌++◌, OnOk, decimal, option_map};
ghost use Rattle.json.specs.Token as token;
ghost use Rattle.serde_json.specs.Data as json;
ghost use Rattle.ent_json.specs.proofs_only.Keyed.{optional_tokens};

use crate::text::JsonText;
use ent_values::Text;
use std::alloc::AllocError;

/// Writes a text at a key.
///
/// # Errors
///
/// `AllocError` if memory runs out; the key may have been written.
///
/// Its contract is an equation but for memory.
pub fn write_text(out: &mut JsonText, key: &str, text: &str) -> Result<(), AllocError>
    ensures { OnOk result (out.new ≡ out.old ++ token.key key.now ∷ token.string text.now ∷ []) }
{
    out.key(key)?;
    out.string(text)
}

/// Writes a text at a key, if there is one.
///
/// # Errors
///
/// `AllocError` if memory runs out; the key may have been written.
///
/// Its contract is an equation but for memory.
pub fn write_optional(out: &mut JsonText, key: &str, text: &Option<Text>) -> Result<(), AllocError>
    ensures { OnOk result (out.new ≡ out.old ++ optional_tokens key.now (option_map json.string text.now)) }
{
    match text {
        None => Ok(()),
        Some(text) => write_text(out, key, text.as_str()),
    }
}

/// Writes a number of things at a key.
///
/// # Errors
///
/// `AllocError` if memory runs out; the key may have been written.
///
/// Its contract is an equation but for memory.
pub fn write_count(out: &mut JsonText, key: &str, count: u64) -> Result<(), AllocError>
    ensures { OnOk result (out.new ≡ out.old ++ token.key key.now ∷ token.number (decimal count) ∷ []) }
{
    out.key(key)?;
    out.count(count)
}
