//! All bytes of a reader.

ghost use Rattle.std.specs.Prelude.{◌≡◌, ◌≤◌, ◌+◌, ◌*◌, IfErr, IfOk, MatchOption, Result, length};
ghost use Rattle.ent_dump.specs.Lines.{IsReadFault, ReadsAll, ReadsMore, TakesAtMost, most_bytes};

use crate::fault::LinesFault;
use std::alloc::Global;
use std::io::{ErrorKind, Read};

/// How many bytes are asked for at once.
const PIECE: usize = 65_536;

/// Reads once, which is one of the reads that are left, and puts what was read behind what was. Gives whether the input
/// goes on.
fn read_piece<R: Read>(
    reader: &mut R,
    piece: &mut [u8],
    all: &mut Vec<u8>,
    left: &mut u32,
) -> Result<bool, LinesFault>
    requires { 1 ≤ left.old }
    ensures more { ReadsMore (R.remaining reader.old) (R.remaining reader.new) (length piece.old)
        all.old.items all.new.items result }
    ensures few { TakesAtMost (R.remaining reader.old) (R.remaining reader.new) (length piece.old) }
    ensures left { left.new + 1 ≡ left.old }
{
    *left -= 1;
    match reader.read(piece) {
        Ok(0) => Ok(false),
        Ok(n) => {
            all.extend_from_slice(&piece[..n])?;
            Ok(true)
        }
        Err(e) if e.kind() == ErrorKind::Interrupted => Ok(true),
        Err(_) => Err(LinesFault::Read),
    }
}

/// All bytes of the reader, of which so many are asked for at once; or none of them, where it isn't at its end though
/// no read is left.
fn read_pieces<R: Read>(
    alloc: Global,
    reader: &mut R,
    room: usize,
    left: &mut u32,
) -> Result<Option<Vec<u8>>, LinesFault>
    requires { 1 ≤ room }
    ensures all { IfOk result (λ o. MatchOption o (left.new ≡ 0)
        (λ all. ReadsAll (R.remaining reader.old) (R.remaining reader.new) all.items)) }
    ensures few { TakesAtMost (R.remaining reader.old) (R.remaining reader.new) (room * left.old) }
    ensures fault { IfErr result IsReadFault }
{
    let mut piece = vec![in alloc; 0; room]?;
    let mut all = Vec::new(alloc);
    for _ in 0..*left {
        if !read_piece(reader, piece.as_mut_slice(), &mut all, left)? {
            return Ok(Some(all));
        }
    }
    Ok(None)
}

/// All bytes of the reader, which is read so many times at most.
pub(crate) fn read_all<R: Read>(
    alloc: Global,
    reader: &mut R,
    reads: u32,
) -> Result<Vec<u8>, LinesFault>
    ensures all { IfOk result (λ all. ReadsAll (R.remaining reader.old) (R.remaining reader.new) all.items) }
    ensures few { TakesAtMost (R.remaining reader.old) (R.remaining reader.new) (most_bytes reads) }
    ensures fault { IfErr result IsReadFault }
{
    let mut left = reads;
    match read_pieces(alloc, reader, PIECE, &mut left)? {
        Some(all) => Ok(all),
        None => Err(LinesFault::Read),
    }
}
