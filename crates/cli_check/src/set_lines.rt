//! `review check --lines`: lines of commands, by the attributes that are declared and the names that are listed.

use crate::documents::wanting;
use crate::known::Vocabulary;
use crate::sentences::line_sentence;
use cli_words::{Shown, Source};
use ent_wire::ServeFault;
use lint_declared::{FaultyLine, faulty_lines};
use std::alloc::{AllocError, Global};

/// So many lines are told at most.
const MOST_LINES: usize = 100;

/// The lines of a text, without their ends.
pub(crate) fn lines_of(alloc: Global, text: &[u8]) -> Result<Vec<&[u8]>, AllocError> {
    let mut lines = Vec::new(alloc);
    for line in text.split(|byte| *byte == b'\n') {
        lines.push(line)?;
    }
    Ok(lines)
}

/// Says on standard error what is wrong with these lines, and of which it may not be meant.
fn tell_lines<R: Eprint + AllocGlobal>(
    rt: &R,
    source: Source<'_>,
    faulty: &[FaultyLine],
    lines: &[&[u8]],
    commands: &[&str],
    known: &Vocabulary,
) -> Result<(), AllocError> {
    let name = Shown(source.name());
    for one in faulty.iter().take(MOST_LINES) {
        let line: &[u8] = match lines.get(one.number.saturating_sub(1)) {
            Some(line) => *line,
            None => &[],
        };
        let told = one.told(rt.alloc(), line, commands, known.declared(), &known.listed)?;
        let start = if one.fault.is_warning() {
            "warning: "
        } else {
            ""
        };
        let _ = eprintln!(rt; "{start}{name}: {told}");
    }
    let more = faulty.len().saturating_sub(MOST_LINES);
    if more > 0 {
        let _ = eprintln!(rt; "{name}: {more} more lines are so");
    }
    Ok(())
}

/// Says on standard error what is wrong with the lines of a text, where these are the words of commands. Gives with how
/// many something is wrong, and how many may not be meant.
fn told_lines<R: Eprint + AllocGlobal>(
    rt: &R,
    source: Source<'_>,
    text: &[u8],
    known: &Vocabulary,
    commands: &[&str],
) -> Result<(usize, usize), AllocError> {
    let alloc = rt.alloc();
    let lines = lines_of(alloc, text)?;
    let lines = lines.as_slice();
    let faulty = faulty_lines(alloc, commands, known.declared(), &known.listed, lines)?;
    let warnings = faulty.iter().filter(|one| one.fault.is_warning()).count();
    let faults = faulty.len().saturating_sub(warnings);
    if faults > 0 {
        let _ = rt.eprintln(line_sentence());
    }
    tell_lines(rt, source, faulty.as_slice(), lines, commands, known)?;
    Ok((faults, warnings))
}

/// Compares the lines of a source with what there is, where these are the words of commands, says on standard error
/// what is wrong with them, and gives with how many something is wrong and how many may not be meant.
pub(crate) fn check_lines<R: Eprint + AllocGlobal>(
    rt: &R,
    source: Source<'_>,
    text: &[u8],
    known: &Vocabulary,
    commands: &[&str],
) -> Result<(usize, usize), ServeFault> {
    match told_lines(rt, source, text, known, commands) {
        Ok(counts) => Ok(counts),
        Err(_) => Err(wanting(rt)),
    }
}
