//! Lines of a file that are sent as they stand.

ghost use Rattle.std.specs.Prelude.{◌≡◌, IfOk};
ghost use Rattle.script_files.specs.Sent.{sent, sent_in};

use crate::cut::cut;
use crate::line::{NEWLINE, without_end};
use crate::session::SentLine;
use ent_values::Items;
use std::alloc::{AllocError, Global};

/// The step of a line of that number, of whose reply nothing is said.
fn sent(alloc: Global, number: u64, line: &[u8]) -> Result<SentLine, AllocError>
    ensures { IfOk result (λ s. s ≡ sent number line.now) }
{
    let line = Items::from_vec(Vec::from_slice(alloc, line)?);
    Ok(SentLine {
        number,
        line,
        expected: None,
    })
}

/// The lines of a file, each as a step of whose reply nothing is said. A newline ends a line, and what stands behind the
/// last one is a line if it has a byte.
///
/// # Errors
///
/// `AllocError` if memory runs out.
///
/// Its contract is an equation but for memory.
pub fn read_lines(alloc: Global, bytes: &[u8]) -> Result<Items<SentLine>, AllocError>
    ensures { IfOk result (λ steps. steps ≡ sent_in bytes.now) }
{
    let mut steps = Items::new(alloc);
    if bytes.is_empty() {
        return Ok(steps);
    }
    let parts = cut(alloc, NEWLINE, without_end(b'\n', bytes))?;
    let mut number = 0;
    for part in parts.as_slice() {
        number += 1;
        steps.push(sent(alloc, number, part)?)?;
    }
    Ok(steps)
}
