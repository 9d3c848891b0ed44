//! Lines out of a reader, a piece at a time.

ghost use Rattle.std.specs.Prelude.{◌≡◌, ◌+◌, ◌<◌, ◌≤◌, length, take, slice_index, vec_len, vec_capacity};
ghost use Rattle.ent_wire.specs.Lines.{HasOneSplit, NoNewline, line_limit};
ghost use Rattle.ent_line.specs.proofs_only.Pieces.{TakesPiece};

use ent_wire::{LINE_LIMIT, ServeFault};
use memchr::memchr;
use std::io::{BufRead, ErrorKind};

/// What one look at the reader's buffer gave.
#[derive(Clone, Copy, PartialEq, Eq)]
pub(crate) enum InputPiece {
    /// The input is at its end.
    End,
    /// A part of a line.
    Part,
    /// The last part of a line, with its newline; and whether another whole line is shown behind it, so that the next
    /// look doesn't wait for input.
    Line(bool),
}

/// The index of the first newline, or the length.
fn newline_at(bytes: &[u8]) -> usize
    ensures bound { result ≤ length bytes.now }
    ensures before { NoNewline (take result bytes.now) }
    ensures at { result < length bytes.now → slice_index bytes.now result ≡ 10 }
{
    match memchr(b'\n', bytes) {
        Some(i) => i,
        None => bytes.len(),
    }
}

/// Takes what the reader's buffer shows, up to and including the first newline, and keeps what fits of the line:
/// one byte more than a line may have.
pub(crate) fn take_piece<R: BufRead>(
    reader: &mut R,
    line: &mut Vec<u8>,
) -> Result<InputPiece, ServeFault>
    requires room { vec_len line.old ≤ line_limit + 1 }
    requires taken { line_limit + 1 ≤ vec_capacity line.old }
    ensures piece { TakesPiece (R.remaining reader.old) (R.remaining reader.new) line.old.items line.new.items result }
    ensures room { vec_len line.new ≤ line_limit + 1 }
    ensures taken { vec_capacity line.old ≤ vec_capacity line.new }
{
    let available = match reader.fill_buf() {
        Ok(available) => available,
        Err(e) if e.kind() == ErrorKind::Interrupted => return Ok(InputPiece::Part),
        Err(_) => return Err(ServeFault::Read),
    };
    let shown = available.len();
    if shown == 0 {
        return Ok(InputPiece::End);
    }
    let end = newline_at(available);
    let room = LINE_LIMIT + 1 - line.len();
    let kept = room.min(end);
    line.extend_from_slice(&available[..kept]).unwrap();
    if end < shown {
        let others = &available[end + 1..];
        let is_followed = newline_at(others) < others.len();
        reader.consume(end + 1);
        Ok(InputPiece::Line(is_followed))
    } else {
        reader.consume(end);
        Ok(InputPiece::Part)
    }
}

/// Law: a text has one way to be lines and a rest.
pub fn one_split()
    ensures { HasOneSplit }
{}
