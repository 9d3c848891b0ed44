//! The file of a state with which documents are checked.

use crate::documents::wanting;
use crate::sentences::state_sentence;
use cli_words::{Shown, Source, Unmet};
use ent_wire::LINE_LIMIT;
use lint_links::{StateFault, StoredState};

/// The number of the first line that no service reads, as it has too many bytes.
fn long_line(lines: &[u8]) -> Option<usize> {
    let mut number = 0usize;
    for line in lines.split(|byte| *byte == b'\n') {
        number = number.saturating_add(1);
        if line.len() > LINE_LIMIT {
            return Some(number);
        }
    }
    None
}

/// Passes the lines of a state that can be those of a dump, or says why not.
fn pass_lines(rt: &impl Eprint, source: Source<'_>, lines: &[u8]) -> Result<(), Unmet> {
    let name = Shown(source.name());
    if lines.is_empty() {
        let _ = rt.eprintln(state_sentence());
        let _ = eprintln!(rt; "{name}: the file is empty");
        return Err(Unmet::Refused);
    }
    match long_line(lines) {
        None => Ok(()),
        Some(number) => {
            let _ = rt.eprintln(state_sentence());
            let _ = eprintln!(rt; "{name}: line {number} has more than {LINE_LIMIT} bytes");
            Err(Unmet::Refused)
        }
    }
}

/// The documents and the root of a state; where they can't be had, that is told on standard error.
pub(crate) fn read_state<R: Eprint + AllocGlobal>(
    rt: &R,
    source: Source<'_>,
    lines: &[u8],
) -> Result<StoredState, Unmet> {
    pass_lines(rt, source, lines)?;
    match StoredState::of(rt.alloc(), lines) {
        Ok(state) => Ok(state),
        Err(StateFault::NotDump(line)) => {
            let _ = rt.eprintln(state_sentence());
            let _ = eprintln!(rt; "{}: line {line}", Shown(source.name()));
            Err(Unmet::Refused)
        }
        Err(StateFault::Memory) => Err(Unmet::Failed(wanting(rt))),
    }
}
