//! Sources of bytes, read over the runtime that the program is started with.

ghost use Rattle.std.specs.Prelude.{◌≢◌};
ghost use Rattle.ent_wire.specs.declared.fault.ServeFault.TheVariants.{Write};

use crate::sources::{Shown, Source};
use crate::status::tell;
use ent_wire::ServeFault;
use std::fs::File;
use std::io;
use std::io::{ErrorKind, Read, Write};
use std::rt::Files;

/// Says on standard error which source can't be read, and why, if that is known.
pub fn tell_cause(rt: &impl Eprint, source: Source<'_>, cause: Option<io::Error>) {
    if let Some(cause) = cause {
        let _ = eprintln!(rt; "{}: {cause}", Shown(source.name()));
    }
}

/// Says on standard error that a source can't be read, and why.
///
/// Its contract leaves open: which of the two it is.
pub fn tell_unread(rt: &impl Eprint, source: Source<'_>, cause: io::Error) -> ServeFault
    ensures { result ≢ Write }
{
    let fault = tell(rt, read_fault(&cause));
    tell_cause(rt, source, Some(cause));
    fault
}

/// The bytes of a reader, at most so many; a fault is told on standard error.
fn read_from<R: Eprint + AllocGlobal, S: Read + Drop>(
    rt: &R,
    source: Source<'_>,
    reader: S,
    most: u64,
) -> Result<Vec<u8>, ServeFault> {
    let mut bytes = Vec::new(rt.alloc());
    let mut front = reader.take(most);
    match front.read_to_end(&mut bytes) {
        Ok(_) => Ok(bytes),
        Err(cause) => Err(tell_unread(rt, source, cause)),
    }
}

/// The bytes of a source, at most so many; a fault is told on standard error.
///
/// Its contract leaves open: all of it: what a file or standard input gives, the system says.
pub fn read_source<R: Files + Input + Eprint + AllocGlobal>(
    rt: &R,
    source: Source<'_>,
    most: u64,
) -> Result<Vec<u8>, ServeFault> {
    match source {
        Source::Input => read_from(rt, source, rt.reader(), most),
        Source::File(path) => match File::open(rt, path) {
            Ok(file) => read_from(rt, source, file, most),
            Err(cause) => Err(tell_unread(rt, source, cause)),
        },
    }
}

/// The fault that the error of a reader is.
///
/// Its contract leaves open: which of the two it is.
pub fn read_fault(error: &io::Error) -> ServeFault
    ensures { result ≢ Write }
{
    match error.kind() {
        ErrorKind::OutOfMemory => ServeFault::Memory,
        _ => ServeFault::Read,
    }
}
