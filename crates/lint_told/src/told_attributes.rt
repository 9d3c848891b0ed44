//! What of documents and of lines isn't declared. Each line is a list of attributes that are declared for the lines
//! below it, a document, or a command.

use crate::broken::{Broken, send, send_line};
use ent_json::{JsonTree, read_json};
use ent_values::Items;
use json::{Scratch, Value};
use lint_declared::{DeclaredAttribute, Listed, faulty_lines, read_attributes, undeclared};
use std::alloc::{AllocError, Global};
use std::io::Write;

/// The commands that there are here.
const COMMANDS: &[&str] = &[
    "action.add",
    "action.drop",
    "attr.set",
    "person.add",
    "person.drop",
    "resource.add",
    "resource.drop",
    "root.set",
];

/// What is said of a document under the attributes that are declared.
fn said_of_document(
    alloc: Global,
    document: &Value<'_>,
    attributes: &[DeclaredAttribute],
) -> Result<String, AllocError> {
    match undeclared(alloc, document, attributes)? {
        None => String::from_str(alloc, "all are declared"),
        Some(found) => found.told(alloc, attributes, None),
    }
}

/// What is said of attributes that are declared, which take the place of those before them.
fn said_of_attributes(
    alloc: Global,
    declarations: &Value<'_>,
    attributes: &mut Items<DeclaredAttribute>,
) -> Result<String, AllocError> {
    match read_attributes(alloc, declarations)? {
        Ok(declared) => {
            *attributes = declared;
            String::from_str(alloc, "attributes are read")
        }
        Err(fault) => fault.told(alloc, None),
    }
}

/// What is known from the lines so far.
#[derive(Drop)]
struct Known {
    /// The attributes that are declared.
    attributes: Items<DeclaredAttribute>,
    /// The names that are listed.
    listed: Listed,
    /// The commands since the last heading, each with a newline behind it.
    lines: Vec<u8>,
}

/// What is said of a line behind others, in their order: of a warning too.
fn said_last(
    alloc: Global,
    lines: &[&[u8]],
    line: &[u8],
    known: &Known,
) -> Result<String, AllocError> {
    let attributes = known.attributes.as_slice();
    let faulty = faulty_lines(alloc, COMMANDS, attributes, &known.listed, lines)?;
    match faulty.last() {
        Some(one) if one.number == lines.len() => {
            let told = one.told(alloc, line, COMMANDS, attributes, &known.listed)?;
            let start = if one.fault.is_warning() {
                "warning: "
            } else {
                ""
            };
            format!(in alloc; "{start}{told}")
        }
        _ => String::from_str(alloc, "all is declared"),
    }
}

/// What is said of a command, whose name is listed from then on, if it lists one. Those since the last heading stand
/// before it.
fn said_of_command(alloc: Global, line: &[u8], known: &mut Known) -> Result<String, AllocError> {
    known.listed.read(alloc, &[line])?;
    known.lines.extend_from_slice(line)?;
    let mut lines = Vec::new(alloc);
    for one in known.lines.as_slice().split(|byte| *byte == b'\n') {
        lines.push(one)?;
    }
    let told = said_last(alloc, lines.as_slice(), line, known);
    drop(lines);
    known.lines.push(b'\n')?;
    told
}

/// What is said of a line.
fn said(alloc: Global, line: &[u8], known: &mut Known) -> Result<String, AllocError> {
    let mut scratch = Scratch::new(alloc);
    match read_json(alloc, line, &mut scratch)? {
        None => said_of_command(alloc, line, known),
        Some(json) => {
            if JsonTree::get(&json, "do").is_some() {
                said_of_command(alloc, line, known)
            } else if JsonTree::get(&json, "Policy").is_none()
                && JsonTree::get(&json, "PolicySet").is_none()
            {
                said_of_attributes(alloc, &json, &mut known.attributes)
            } else {
                said_of_document(alloc, &json, known.attributes.as_slice())
            }
        }
    }
}

/// Writes what is said of each line of a text, a heading as it stands.
pub(crate) fn tell_attributes<W: Write>(
    alloc: Global,
    text: &[u8],
    writer: &mut W,
) -> Result<(), Broken> {
    let mut known = Known {
        attributes: Items::new(alloc),
        listed: Listed::new(alloc),
        lines: Vec::new(alloc),
    };
    for line in text.split(|byte| *byte == b'\n') {
        if line.starts_with(b"#") {
            known.lines.clear();
            send(writer, line)?;
            send(writer, b"\n")?;
        } else {
            let told = said(alloc, line.trim_ascii_end(), &mut known)?;
            send_line(writer, b"", told.as_str())?;
        }
    }
    Ok(())
}
