//! What the texts of sessions stand for.

ghost use Rattle.std.specs.Prelude.{◌≡◌, ◌++◌, IfOk, OnOk};
ghost use Rattle.script_files.specs.Texts.{at_time, opened, spelled, written};

use crate::bracket::push_inside;
use crate::cut::{cut, split_once};
use crate::number::{NUMBER, push_numbered};
use ent_values::Items;
use std::alloc::{AllocError, Global};

/// What begins a part of a text that is written out.
const OPEN: &[u8] = &[0xC2, 0xAB];

/// What ends it.
const CLOSE: &[u8] = &[0xC2, 0xBB];

/// Writes what a « with this text behind it, up to the next one, stands for.
fn push_opened(alloc: Global, part: &[u8], out: &mut Vec<u8>) -> Result<(), AllocError>
    ensures { OnOk result (out.new.items ≡ out.old.items ++ opened part.now) }
{
    if let Some((inside, behind)) = split_once(CLOSE, part) {
        if push_inside(alloc, inside, out)? {
            return out.extend_from_slice(behind);
        }
    }
    out.extend_from_slice(OPEN)?;
    out.extend_from_slice(part)
}

/// Writes what a text stands for.
fn push_spelled(alloc: Global, text: &[u8], out: &mut Vec<u8>) -> Result<(), AllocError>
    ensures { OnOk result (out.new.items ≡ out.old.items ++ spelled text.now) }
{
    let parts = cut(alloc, OPEN, text)?;
    let Some((first, others)) = parts.as_slice().split_first() else {
        return Ok(());
    };
    out.extend_from_slice(first)?;
    for part in others {
        push_opened(alloc, part, out)?;
    }
    Ok(())
}

/// A text at a time.
fn at_time(alloc: Global, time: u32, text: &[u8]) -> Result<Vec<u8>, AllocError>
    ensures { IfOk result (λ v. v.items ≡ at_time time text.now) }
{
    let parts = cut(alloc, NUMBER, text)?;
    let mut out = Vec::new(alloc);
    push_numbered(time, parts.as_slice(), &mut out)?;
    Ok(out)
}

/// What a text stands for, once or at a time.
pub(crate) fn written(
    alloc: Global,
    time: Option<u32>,
    text: &[u8],
) -> Result<Items<u8>, AllocError>
    ensures { IfOk result (λ v. v ≡ written time text.now) }
{
    let mut out = Vec::new(alloc);
    match time {
        None => push_spelled(alloc, text, &mut out)?,
        Some(time) => {
            let text = at_time(alloc, time, text)?;
            push_spelled(alloc, text.as_slice(), &mut out)?;
        }
    }
    Ok(Items::from_vec(out))
}
