//! The lines of a dump, out of the reply that tells them.

ghost use Rattle.std.specs.Prelude.{Result};
ghost use Rattle.std.specs.List.{flat_map};
ghost use Rattle.ent_dump.specs.Lines.{DumpsLines, Sends, TakesAtMost, WritesTold, ended, most_bytes};
ghost use Rattle.ent_dump.specs.Reply.{text_of, told_lines};

use crate::fault::LinesFault;
use crate::input::read_all;
use crate::output::send;
use crate::told::{text_of, told_lines};
use ent_json::{JsonTree, read_json};
use json::Scratch;
use std::alloc::Global;
use std::io::{Read, Write};

/// Writes a text with a newline, or a front of it. What is no text counts as the empty one.
fn write_line<J: JsonTree, W: Write>(line: &J, writer: &mut W) -> Result<(), LinesFault>
    ensures { Sends (W.contents writer.old) (W.contents writer.new) (ended (text_of (J.content line.now))) result }
{
    send(writer, text_of(line).as_bytes())?;
    send(writer, b"\n")
}

/// Writes texts, each with a newline, or a front of them.
fn write_lines<J: JsonTree, W: Write>(lines: &[J], writer: &mut W) -> Result<(), LinesFault>
    ensures { Sends (W.contents writer.old) (W.contents writer.new)
        (flat_map (λ j. ended (text_of (J.content j))) lines.now) result }
{
    for line in lines {
        write_line(line, writer)?;
    }
    match writer.flush() {
        Ok(()) => Ok(()),
        Err(_) => Err(LinesFault::Write),
    }
}

/// Writes the lines that a JSON value tells.
fn write_told<J: JsonTree, W: Write>(value: &J, writer: &mut W) -> Result<(), LinesFault>
    ensures { WritesTold (told_lines (J.content value.now)) (W.contents writer.old) (W.contents writer.new) result }
{
    match told_lines(value) {
        None => Err(LinesFault::NotDump),
        Some(lines) => write_lines(lines, writer),
    }
}

/// Reads one reply to `dump` to the end of the input, in so many reads at most, and writes its lines, each with a
/// newline. The writer is flushed at the end. A read gives 65,536 bytes at most, and the last one shows the end.
///
/// # Errors
///
/// [`LinesFault::NotDump`] if the input is no JSON, has not exactly the key `dump` with a list of texts, or a text has
/// a newline. [`LinesFault::Read`] if the reader failed, or the last read didn't show the end of the input.
/// [`LinesFault::Memory`] if memory ran out. In all of these nothing was written. [`LinesFault::Write`] if the writer
/// failed; then a front was written.
///
/// Its contract leaves open: when it ends by a read fault or for want of memory, of which only that nothing is written
/// is said; how much a failing writer took.
pub fn dump_lines_within<R: Read, W: Write>(
    alloc: Global,
    reader: &mut R,
    writer: &mut W,
    reads: u32,
) -> Result<(), LinesFault>
    ensures lines { DumpsLines (record {
      unread = R.remaining reader.old;
      left = R.remaining reader.new;
      wrote = W.contents writer.old;
      holds = W.contents writer.new;
    }) result }
    ensures few { TakesAtMost (R.remaining reader.old) (R.remaining reader.new) (most_bytes reads) }
{
    let all = read_all(alloc, reader, reads)?;
    let mut scratch = Scratch::new(alloc);
    match read_json(alloc, all.as_slice(), &mut scratch)? {
        None => Err(LinesFault::NotDump),
        Some(value) => write_told(&value, writer),
    }
}

/// Reads one reply to `dump` to the end of the input, and writes its lines, each with a newline, as `dump_lines_within`
/// does it with 4,294,967,295 reads.
///
/// # Errors
///
/// Those of `dump_lines_within`.
///
/// Its contract leaves open: as of `dump_lines_within`.
pub fn dump_lines<R: Read, W: Write>(
    alloc: Global,
    reader: &mut R,
    writer: &mut W,
) -> Result<(), LinesFault>
    ensures lines { DumpsLines (record {
      unread = R.remaining reader.old;
      left = R.remaining reader.new;
      wrote = W.contents writer.old;
      holds = W.contents writer.new;
    }) result }
    ensures few { TakesAtMost (R.remaining reader.old) (R.remaining reader.new) (most_bytes 4294967295) }
{
    dump_lines_within(alloc, reader, writer, u32::MAX)
}
