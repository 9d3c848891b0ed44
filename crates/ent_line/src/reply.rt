//! Replies, and how they are written.

ghost use Rattle.std.specs.Prelude.{◌≡◌, Result, Some, None};
ghost use Rattle.ent_line.specs.Answering.{reply_view};
ghost use Rattle.ent_line.specs.Replies.{accepted, marked, refusal_line, line_of};
ghost use Rattle.ent_wire.specs.Pieces.{SendsTo};

use ent_table::Accepted;
use ent_wire::{Refusal, ServeFault, send_all};
use itoa::Buffer;
use std::io::Write;

/// What a line is answered by. All but `Text` are written without memory.
#[derive(Drop)]
pub enum Reply {
    /// An edit was accepted, written as `{"changes":n,"serial":n}`.
    Accepted(Accepted),
    /// Why it is refused, written as `{"refused":n}`, or for a document with its sub-code as `{"refused":n,"sub":n}`.
    Refused(Refusal),
    /// The number of edits before a mark, written as `{"mark":n}`.
    Marked(u64),
    /// A JSON text, written as it is.
    Text(String),
}

/// Writes the line of an accepted edit.
fn send_accepted<W: Write>(writer: &mut W, changes: u64, serial: u64) -> Result<(), ServeFault>
    ensures { SendsTo W.contents writer.old writer.new (line_of (accepted changes serial)) result }
{
    let mut first = Buffer::new();
    let mut second = Buffer::new();
    let start = "{\"changes\":".as_bytes();
    let changes_text = first.format(changes).as_bytes();
    let middle = ",\"serial\":".as_bytes();
    let serial_text = second.format(serial).as_bytes();
    let end = "}\n".as_bytes();
    send_all(writer, &[start, changes_text, middle, serial_text, end])
}

/// Writes the line of a refusal that has no sub-code.
fn send_refused<W: Write>(writer: &mut W, code: u8) -> Result<(), ServeFault>
    ensures { SendsTo W.contents writer.old writer.new (refusal_line code None) result }
{
    let mut first = Buffer::new();
    let start = "{\"refused\":".as_bytes();
    let code_text = first.format(code).as_bytes();
    let end = "}\n".as_bytes();
    send_all(writer, &[start, code_text, end])
}

/// Writes the line of a refused document.
fn send_sub<W: Write>(writer: &mut W, code: u8, sub: u8) -> Result<(), ServeFault>
    ensures { SendsTo W.contents writer.old writer.new (refusal_line code (Some sub)) result }
{
    let mut first = Buffer::new();
    let mut second = Buffer::new();
    let start = "{\"refused\":".as_bytes();
    let code_text = first.format(code).as_bytes();
    let middle = ",\"sub\":".as_bytes();
    let sub_text = second.format(sub).as_bytes();
    let end = "}\n".as_bytes();
    send_all(writer, &[start, code_text, middle, sub_text, end])
}

/// Writes the line of a mark.
fn send_marked<W: Write>(writer: &mut W, serial: u64) -> Result<(), ServeFault>
    ensures { SendsTo W.contents writer.old writer.new (line_of (marked serial)) result }
{
    let mut first = Buffer::new();
    let start = "{\"mark\":".as_bytes();
    let serial_text = first.format(serial).as_bytes();
    let end = "}\n".as_bytes();
    send_all(writer, &[start, serial_text, end])
}

/// Writes the reply's line with its newline, or a front of it where the writer fails. Takes no memory.
pub(crate) fn send_reply<W: Write>(writer: &mut W, reply: &Reply) -> Result<(), ServeFault>
    ensures { SendsTo W.contents writer.old writer.new (line_of (reply_view reply.now)) result }
{
    match reply {
        Reply::Accepted(accepted) => send_accepted(writer, accepted.changes, accepted.serial),
        Reply::Refused(refusal) => match refusal.sub_code() {
            None => send_refused(writer, refusal.code()),
            Some(sub) => send_sub(writer, refusal.code(), sub),
        },
        Reply::Marked(serial) => send_marked(writer, *serial),
        Reply::Text(text) => send_all(writer, &[text.as_bytes(), "\n".as_bytes()]),
    }
}
