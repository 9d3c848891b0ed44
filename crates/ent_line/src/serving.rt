//! Lines from a reader, and their replies to a writer.

ghost use Rattle.std.specs.Prelude.{◌≡◌, ◌-◌, ◌≤◌, ◌&&◌, IfOk, nat_lt};
ghost use Rattle.ent_line.specs.Headline.{Headline};
ghost use Rattle.ent_line.specs.Serving.{ServesUntil};
ghost use Rattle.ent_line.specs.proofs_only.Pieces.{AnswersLine};
ghost use Rattle.ent_line.specs.World.{counted_of};

use crate::answering::Answering;
use crate::input::{InputPiece, take_piece};
use crate::law::replies_are_fresh;
use crate::reply::send_reply;
use crate::service::Service;
use ent_eval::Evaluates;
use ent_wire::{LINE_LIMIT, ServeFault};
use std::alloc::Global;
use std::io::{BufRead, Write};

/// Handles a line, and writes its reply, or a front of it. The writer is flushed unless the call goes on to a line that
/// is at hand, so that a reply waits for lines that came already, and never for input.
fn answer_line<S: Answering, W: Write>(
    service: &mut S,
    line: &[u8],
    goes_on: bool,
    writer: &mut W,
) -> Result<(), ServeFault>
    requires { S.is_ready service.old }
    ensures ready { S.is_ready service.new }
    ensures line { AnswersLine S.answers (S.world service.old) (S.world service.new) line.now
        (W.contents writer.old) (W.contents writer.new) result }
{
    let reply = service.handle(line);
    send_reply(writer, &reply)?;
    if goes_on {
        return Ok(());
    }
    match writer.flush() {
        Ok(()) => Ok(()),
        Err(_) => Err(ServeFault::Write),
    }
}

/// Whether another look comes behind this one, and shows a whole line without waiting for input.
fn is_at_hand(is_followed: bool, look: u32, looks: u32) -> bool
    ensures { result ≡ (is_followed && nat_lt 1 (looks - look)) }
{
    is_followed && looks.saturating_sub(look) > 1
}

/// Answers each line of the reader by one line into the writer, and gives their number, after so many looks at the
/// reader's buffer at most.
///
/// A line ends at a newline, or at the end of the input if it has a byte. A line of more than `LINE_LIMIT` bytes is
/// read to its end and handled as a line that is too long. The writer is flushed before a look that may wait for
/// input, before a read fault is told, and at the end. The line buffer is taken at the start, and `Memory` comes only
/// there. Where the last look doesn't show the end the call ends with `Read`. A look shows no more than one line, so
/// no more lines than looks are answered.
///
/// Its contract leaves open: when it ends by a read fault or for want of memory, which it may with no line read; how
/// much a failing writer took of the last reply.
pub fn serve_within<S: Answering, R: BufRead, W: Write>(
    alloc: Global,
    service: &mut S,
    reader: &mut R,
    writer: &mut W,
    looks: u32,
) -> Result<u64, ServeFault>
    requires { S.is_ready service.old }
    ensures ready { S.is_ready service.new }
    ensures run { ServesUntil S.answers (record {
      start = S.world service.old;
      end = S.world service.new;
      unread = R.remaining reader.old;
      left = R.remaining reader.new;
      wrote = W.contents writer.old;
      holds = W.contents writer.new;
    }) result }
    ensures looks { IfOk result (λ count. count ≤ looks) }
{
    let Ok(mut line) = Vec::with_capacity(alloc, LINE_LIMIT + 1) else {
        return Err(ServeFault::Memory);
    };
    let mut count = 0;
    for look in 0..looks {
        let piece = take_piece(reader, &mut line)?;
        match piece {
            InputPiece::End => {
                if line.is_empty() {
                    return Ok(count);
                }
                answer_line(service, line.as_slice(), false, writer)?;
                return Ok(count + 1);
            }
            InputPiece::Part => {}
            InputPiece::Line(is_followed) => {
                let goes_on = is_at_hand(is_followed, look, looks);
                answer_line(service, line.as_slice(), goes_on, writer)?;
                line.clear();
                count += 1;
            }
        }
    }
    Err(ServeFault::Read)
}

/// Answers each line of the reader by one line into the writer, and gives their number, as `serve_within` does it
/// with 4,294,967,295 looks.
///
/// Its contract leaves open: as of `serve_within`.
pub fn serve<S: Answering, R: BufRead, W: Write>(
    alloc: Global,
    service: &mut S,
    reader: &mut R,
    writer: &mut W,
) -> Result<u64, ServeFault>
    requires { S.is_ready service.old }
    ensures ready { S.is_ready service.new }
    ensures run { ServesUntil S.answers (record {
      start = S.world service.old;
      end = S.world service.new;
      unread = R.remaining reader.old;
      left = R.remaining reader.new;
      wrote = W.contents writer.old;
      holds = W.contents writer.new;
    }) result }
    ensures looks { IfOk result (λ count. count ≤ 4294967295) }
{
    serve_within(alloc, service, reader, writer, u32::MAX)
}

/// Serves a review: each line of the reader has its reply in the writer, as `serve` does it, and each reply is what
/// evaluating every request afresh gives on what the accepted edits leave (section 7). What `work` is answered is the
/// number of evaluations that the lines before it made, and those before the first.
///
/// Its contract leaves open: as of `serve_within`, for the headline.
pub fn serve_review<E: Evaluates, R: BufRead, W: Write>(
    alloc: Global,
    service: &mut Service<E>,
    reader: &mut R,
    writer: &mut W,
) -> Result<u64, ServeFault>
    ensures headline { Headline (record {
      start = counted_of service.old;
      end = counted_of service.new;
      unread = R.remaining reader.old;
      left = R.remaining reader.new;
      wrote = W.contents writer.old;
      holds = W.contents writer.new;
    }) result }
{
    replies_are_fresh();
    serve(alloc, service, reader, writer)
}
