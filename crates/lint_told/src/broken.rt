//! What goes wrong, and how lines are written.

use std::alloc::AllocError;
use std::io::Write;

/// Reading or writing failed, or memory was wanting.
#[derive(Drop)]
pub(crate) struct Broken;

impl From<AllocError> for Broken {
    fn from(_: AllocError) -> Broken {
        Broken
    }
}

/// Writes the bytes.
pub(crate) fn send<W: Write>(writer: &mut W, bytes: &[u8]) -> Result<(), Broken> {
    match writer.write_all(bytes) {
        Ok(()) => Ok(()),
        Err(_) => Err(Broken),
    }
}

/// Writes a line of what is told, behind what it begins with.
pub(crate) fn send_line<W: Write>(writer: &mut W, start: &[u8], told: &str) -> Result<(), Broken> {
    send(writer, start)?;
    send(writer, told.as_bytes())?;
    send(writer, b"\n")
}
