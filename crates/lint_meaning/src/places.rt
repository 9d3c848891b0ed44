//! The places of parts, and what is put last of one.

ghost use Rattle.std.specs.Prelude.{◌≡◌, ◌++◌, IfOk, OnOk, string_bytes, true};
ghost use Rattle.lint_meaning.specs.Places.{at_key, member, told_if};

use crate::warning::{Meaning, Warning};
use ent_values::{Items, Text};
use std::alloc::{AllocError, Global};

/// The place of the member of that number of the list at a key.
pub(crate) fn member(
    alloc: Global,
    pointer: &str,
    key: &str,
    number: usize,
) -> Result<String, AllocError>
    ensures { IfOk result (λ s. string_bytes s ≡ member pointer.now key.now number) }
{
    format!(in alloc; "{pointer}/{key}/{number}")
}

/// The place of what stands at a key.
pub(crate) fn at_key(alloc: Global, pointer: &str, key: &str) -> Result<String, AllocError>
    ensures { IfOk result (λ s. string_bytes s ≡ at_key pointer.now key.now) }
{
    format!(in alloc; "{pointer}/{key}")
}

/// Puts what is told of a part last.
pub(crate) fn put(
    alloc: Global,
    pointer: &str,
    meaning: Meaning,
    warnings: &mut Items<Warning>,
) -> Result<(), AllocError>
    ensures { OnOk result (warnings.new ≡ warnings.old ++ told_if true meaning pointer.now) }
{
    let pointer = Text::from_str(alloc, pointer)?;
    warnings.push(Warning { pointer, meaning })
}
