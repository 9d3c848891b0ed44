//! Tells what `review check` says of stored documents and lines. Standard input has parts: a line `=== documents`,
//! `=== attributes` or `=== links` begins one, which is written as it stands, and below it what is told of the part.
#![tactic(auto)]

ghost use Rattle.std.specs.Prelude.{◌≡◌, ◌⊎◌};

mod broken;
mod told_attributes;
mod told_documents;
mod told_links;

use crate::broken::{Broken, send};
use crate::told_attributes::tell_attributes;
use crate::told_documents::tell_documents;
use crate::told_links::tell_links;
use std::alloc::Global;
use std::io::{BufRead, BufReader, BufWriter, Write};
use std::process::ExitCode;
use std::{io, str};

/// All was told.
const OKAY: u8 = 0;

/// Reading or writing failed, memory was wanting, or a part isn't known.
const BROKEN: u8 = 2;

/// What a line begins with that begins a part.
const HEADING: &[u8] = b"=== ";

/// Writes the line that begins a part, and what is told of the part.
fn tell_part<W: Write>(
    alloc: Global,
    heading: &[u8],
    text: &[u8],
    writer: &mut W,
) -> Result<(), Broken> {
    send(writer, heading)?;
    let text = text.strip_suffix(b"\n").unwrap_or(text);
    match heading {
        b"=== documents\n" => tell_documents(alloc, text, writer),
        b"=== attributes\n" => tell_attributes(alloc, text, writer),
        b"=== links\n" => match str::from_utf8(text) {
            Ok(text) => tell_links(alloc, text, writer),
            Err(_) => Err(Broken),
        },
        _ => Err(Broken),
    }
}

/// Tells of each part of the reader.
fn tell_all<R: BufRead, W: Write>(
    alloc: Global,
    reader: &mut R,
    writer: &mut W,
) -> Result<(), Broken> {
    let mut heading = Vec::new(alloc);
    let mut text = Vec::new(alloc);
    for _ in 0..u64::MAX {
        let mut line = Vec::new(alloc);
        if reader.read_until(b'\n', &mut line).is_err() {
            return Err(Broken);
        }
        if line.is_empty() || line.starts_with(HEADING) {
            if !heading.is_empty() {
                tell_part(alloc, heading.as_slice(), text.as_slice(), writer)?;
            }
            if line.is_empty() {
                return Ok(());
            }
            heading = line;
            text.clear();
        } else if text.extend_from_slice(line.as_slice()).is_err() {
            return Err(Broken);
        }
    }
    Err(Broken)
}

/// Tells of standard input on standard output.
fn serve<R: Input + Print + AllocGlobal>(rt: &R) -> Result<(), Broken> {
    let alloc = rt.alloc();
    let Ok(mut reader) = BufReader::new(alloc, rt.reader()) else {
        return Err(Broken);
    };
    let Ok(mut writer) = BufWriter::new(alloc, io::writer(rt)) else {
        return Err(Broken);
    };
    tell_all(alloc, &mut reader, &mut writer)?;
    match writer.flush() {
        Ok(()) => Ok(()),
        Err(_) => Err(Broken),
    }
}

/// Tells of standard input on standard output, and gives the exit status.
fn run<R: Input + Print + AllocGlobal>(rt: &R) -> u8
    ensures { (result ≡ 0) ⊎ (result ≡ 2) }
{
    match serve(rt) {
        Ok(()) => OKAY,
        Err(_) => BROKEN,
    }
}

fn main(rt: HostRuntime) -> ExitCode {
    ExitCode::from(run(&rt))
}
