//! What is wrong with stored documents together. A line `# NAME` begins a set of them, a line `state LINE` is a line of
//! its state, and a line `file NAME TEXT` is the document of a file.

use crate::broken::{Broken, send_line};
use lint_links::{StateFault, StoredState, Together};
use std::alloc::Global;
use std::io::Write;

/// A file: its name and its text.
#[derive(Clone, Copy, Drop)]
struct File<'a> {
    name: &'a str,
    text: &'a str,
}

/// Writes what is told of files and a state together.
fn tell_state<W: Write>(
    alloc: Global,
    state: StoredState,
    files: &[File<'_>],
    writer: &mut W,
) -> Result<(), Broken> {
    let mut together = Together::new(alloc, "state", state);
    let mut is_fine = true;
    for file in files {
        if let Some(told) = together.add(file.name, file.text.as_bytes())? {
            send_line(writer, b"", told.as_str())?;
            is_fine = false;
        }
    }
    let told = together.told()?;
    for line in &told.faults {
        send_line(writer, b"", line.as_str())?;
    }
    for warning in &told.warnings {
        let line = format!(in alloc; "warning: {warning}")?;
        send_line(writer, b"", line.as_str())?;
    }
    if is_fine && told.faults.is_empty() && told.warnings.is_empty() {
        send_line(writer, b"", "nothing")?;
    }
    Ok(())
}

/// Writes what is told of a set.
fn tell<W: Write>(
    alloc: Global,
    state: &str,
    files: &[File<'_>],
    writer: &mut W,
) -> Result<(), Broken> {
    match StoredState::of(alloc, state.as_bytes()) {
        Ok(state) => tell_state(alloc, state, files, writer),
        Err(StateFault::NotDump(_)) => send_line(writer, b"", "not a state"),
        Err(StateFault::Memory) => Err(Broken),
    }
}

/// Writes what is told of each set.
pub(crate) fn tell_links<W: Write>(
    alloc: Global,
    text: &str,
    writer: &mut W,
) -> Result<(), Broken> {
    let mut state = String::new(alloc);
    let mut files = Vec::new(alloc);
    let mut is_begun = false;
    for line in text.lines() {
        if let Some(rest) = line.strip_prefix("state ") {
            state.push_str(rest)?;
            state.push_str("\n")?;
        } else if let Some(rest) = line.strip_prefix("file ") {
            let (name, text) = rest.split_once(' ').unwrap_or((rest, ""));
            if files.push(File { name, text }).is_err() {
                return Err(Broken);
            }
        } else if line.starts_with("# ") {
            if is_begun {
                tell(alloc, state.as_str(), files.as_slice(), writer)?;
            }
            send_line(writer, b"", line)?;
            is_begun = true;
            state.clear();
            files.clear();
        }
    }
    if is_begun {
        tell(alloc, state.as_str(), files.as_slice(), writer)?;
    }
    Ok(())
}
