//! The lines of a file, and the replies to them.

ghost use Rattle.std.specs.Prelude.{◌≡◌, ◌++◌, OnOk};
ghost use Rattle.cli_replies.specs.Comparing.{behind, asked};

use crate::comparing::split_reply;
use cli_words::{Source, read_source, tell};
use ent_values::Items;
use ent_wire::ServeFault;
use script_files::{SentLine, read_lines};
use std::alloc::AllocError;
use std::rt::Files;

/// Lines of a file.
#[derive(Clone, Copy)]
pub struct Lines<'a> {
    /// What the file is called.
    pub name: &'a str,
    /// Its lines.
    pub steps: &'a [SentLine],
}

/// What stands behind the replies to steps.
///
/// Its contract is an equation.
pub fn behind<'r>(steps: &[SentLine], replies: &'r [u8]) -> &'r [u8]
    ensures { result.now ≡ behind steps.now replies.now }
{
    let mut rest = replies;
    for _ in steps {
        let (_, others) = split_reply(rest);
        rest = others;
    }
    rest
}

/// Puts the lines of steps, each with its newline, behind others.
///
/// Its contract is an equation but for memory.
pub fn push_asked(steps: &[SentLine], lines: &mut Vec<u8>) -> Result<(), AllocError>
    ensures { OnOk result (lines.new.items ≡ lines.old.items ++ asked steps.now) }
{
    for step in steps {
        lines.extend_from_slice(step.line.as_slice())?;
        lines.push(b'\n')?;
    }
    Ok(())
}

/// The lines of a source; a fault is told on standard error.
///
/// Its contract leaves open: all of it: what a file has, the system says.
pub fn read_state<R: Files + Input + Eprint + AllocGlobal>(
    rt: &R,
    source: Source<'_>,
) -> Result<Items<SentLine>, ServeFault> {
    let bytes = read_source(rt, source, u64::MAX)?;
    match read_lines(rt.alloc(), bytes.as_slice()) {
        Ok(lines) => Ok(lines),
        Err(_) => Err(tell(rt, ServeFault::Memory)),
    }
}
