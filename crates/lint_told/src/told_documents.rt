//! What is wrong with a document. A line that begins with `# ` names one, which stands in the lines behind it up to the
//! next such line.

use crate::broken::{Broken, send, send_line};
use lint_messages::{explain, explain_all, warnings};
use std::alloc::Global;
use std::io::Write;

/// What a line begins with that names a document.
const HEADING: &[u8] = b"# ";

/// Writes the other lines that are told of a document, of which the first is given.
fn tell_others<W: Write>(
    alloc: Global,
    first: &str,
    text: &[u8],
    writer: &mut W,
) -> Result<(), Broken> {
    let Ok(all) = explain_all(alloc, text) else {
        return Err(Broken);
    };
    for (number, line) in all.lines.iter().enumerate() {
        if number > 0 || line.as_str() != first {
            send_line(writer, b"and ", line.as_str())?;
        }
    }
    if all.is_cut {
        send(writer, b"and more\n")?;
    }
    Ok(())
}

/// Writes the line that names a document, and what is wrong with the document.
fn tell<W: Write>(
    alloc: Global,
    heading: &[u8],
    text: &[u8],
    writer: &mut W,
) -> Result<(), Broken> {
    let Ok(told) = explain(alloc, text) else {
        return Err(Broken);
    };
    send(writer, heading)?;
    let first = match &told {
        Some(told) => told.as_str(),
        None => "nothing",
    };
    send_line(writer, b"", first)?;
    if told.is_some() {
        tell_others(alloc, first, text, writer)?;
    }
    let Ok(warnings) = warnings(alloc, text) else {
        return Err(Broken);
    };
    for line in &warnings {
        send_line(writer, b"warning: ", line.as_str())?;
    }
    Ok(())
}

/// Puts a line with its newline behind others.
fn push_line(lines: &mut Vec<u8>, line: &[u8]) -> Result<(), Broken> {
    if lines.extend_from_slice(line).is_err() || lines.push(b'\n').is_err() {
        return Err(Broken);
    }
    Ok(())
}

/// Says of each document of a text what is wrong with it.
pub(crate) fn tell_documents<W: Write>(
    alloc: Global,
    text: &[u8],
    writer: &mut W,
) -> Result<(), Broken> {
    let mut heading = Vec::new(alloc);
    let mut document = Vec::new(alloc);
    for line in text.split(|byte| *byte == b'\n') {
        if line.starts_with(HEADING) {
            if !heading.is_empty() {
                tell(alloc, heading.as_slice(), document.as_slice(), writer)?;
            }
            heading.clear();
            push_line(&mut heading, line)?;
            document.clear();
        } else {
            push_line(&mut document, line)?;
        }
    }
    if !heading.is_empty() {
        tell(alloc, heading.as_slice(), document.as_slice(), writer)?;
    }
    Ok(())
}
