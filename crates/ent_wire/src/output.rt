//! Bytes into a writer.

ghost use Rattle.std.specs.Prelude.{◌≡◌, Result};
ghost use Rattle.std.specs.List.{flat_map};
ghost use Rattle.ent_wire.specs.Pieces.{SendsTo};

use crate::fault::ServeFault;
use std::io::{ErrorKind, Write};

/// Writes all of the bytes, or a front of them where the writer fails. Takes no memory.
///
/// Its contract leaves open: how much a failing writer took.
pub fn send<W: Write>(writer: &mut W, bytes: &[u8]) -> Result<(), ServeFault>
    ensures { SendsTo W.contents writer.old writer.new bytes.now result }
{
    let mut sent = 0;
    for _ in 0..u64::MAX {
        if sent == bytes.len() {
            return Ok(());
        }
        match writer.write(&bytes[sent..]) {
            Ok(n) => {
                if n == 0 {
                    return Err(ServeFault::Write);
                }
                sent += n;
            }
            Err(e) => {
                if e.kind() != ErrorKind::Interrupted {
                    return Err(ServeFault::Write);
                }
            }
        }
    }
    Err(ServeFault::Write)
}

/// Writes the parts one after the other, or a front of them where the writer fails. Takes no memory.
///
/// Its contract leaves open: how much a failing writer took.
pub fn send_all<W: Write>(writer: &mut W, parts: &[&[u8]]) -> Result<(), ServeFault>
    ensures { SendsTo W.contents writer.old writer.new (flat_map (λ p. p.now) parts.now) result }
{
    for part in parts {
        send(writer, part)?;
    }
    Ok(())
}
