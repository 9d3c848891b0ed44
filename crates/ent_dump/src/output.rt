//! Bytes into a writer.

ghost use Rattle.std.specs.Prelude.{Result};
ghost use Rattle.ent_dump.specs.Lines.{Sends};

use crate::fault::LinesFault;
use std::io::Write;

/// Writes all of the bytes, or a front of them where the writer fails. Takes no memory.
pub(crate) fn send<W: Write>(writer: &mut W, bytes: &[u8]) -> Result<(), LinesFault>
    ensures { Sends (W.contents writer.old) (W.contents writer.new) bytes.now result }
{
    match ent_wire::send(writer, bytes) {
        Ok(()) => Ok(()),
        Err(_) => Err(LinesFault::Write),
    }
}
