//! `review check --coverage`: which rules of a state's documents give no decision in its table.

use crate::differing::Ending;
use cli_replies::{Lines, compare, push_asked, split_reply};
use cli_serve::{MODULES, replies_to};
use ent_table::Limits;
use ent_wire::{ServeFault, send_all};
use script_coverage::told_of;
use std::alloc::Global;
use std::io::Write;

/// The lines that ask for the documents and for the table.
const ASKED: &[u8] = b"{\"do\":\"dump\"}\n{\"do\":\"table\"}\n";

/// Writes which rules of the documents behind the lines of a state, of a service within those limits, give no decision
/// in its table, as lines or as JSON; or which line is refused. Faults: the writer's, which may have taken a front of
/// what is written, and want of memory.
pub(crate) fn cover_from<W: Write>(
    alloc: Global,
    limits: Limits,
    is_json: bool,
    state: Lines<'_>,
    writer: &mut W,
) -> Result<Ending, ServeFault> {
    let mut lines = Vec::new(alloc);
    push_asked(state.steps, &mut lines)?;
    lines.extend_from_slice(ASKED)?;
    let replies = replies_to(alloc, limits, MODULES, lines.as_slice())?;
    let (accepted, rest) = compare(alloc, state.name, state.steps, replies.as_slice(), writer)?;
    if !accepted {
        return Ok(Ending::Refused);
    }
    let (dump, rest) = split_reply(rest);
    let (table, _) = split_reply(rest);
    let text = told_of(alloc, is_json, dump, table)?;
    send_all(writer, &[text.as_slice()])?;
    Ok(Ending::Same)
}
