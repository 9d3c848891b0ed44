//! Sessions out of the bytes of a file.

ghost use Rattle.std.specs.Prelude.{◌≡◌, ◌⊎◌, Err, IfErr, IfOk, Ok};
ghost use Rattle.script_files.specs.Sessions.{sessions_of};
ghost use Rattle.script_files.specs.declared.fault.SessionFault.TheVariants.{Memory};

use crate::building::sessions_in;
use crate::fault::SessionFault;
use crate::line::lines_of;
use crate::session::Session;
use crate::standing::misplaced;
use ent_values::Items;
use std::alloc::Global;

/// The sessions that the bytes of a file spell, in order.
///
/// A line `# NAME` begins a session over two modules of each sort, `# NAME N` one over N, from 1 to 4. `> TEXT` is a
/// line that is sent, and right below it may stand what is expected of its reply: `< TEXT` for those bytes, `= TEXT` for
/// the same JSON, `~ TEXT` for JSON of which the text is a part. `--` begins a comment. What stands behind
/// `* N`, up to an empty line, comes N times. In a text `«N*TEXT»` and `«N,TEXT»` are N copies, with commas between
/// those of the second, and `«FF»` is the byte of two hexadecimal digits, other than a newline. In copies and in what
/// comes many times `№` is the number of the time, from 0, `№+K` that number and K more, and `№%K` what is left of it
/// when it is divided by K. N and K have 1 to 9 digits. All else in a text stands for itself, and need not be UTF-8.
/// A carriage return before a newline is no part of a line.
///
/// # Errors
///
/// [`SessionFault::Form`] with the number of the first line that can't stand behind those before it, and why, and
/// [`SessionFault::Memory`] where memory is refused: copies take as many bytes as they write.
///
/// Its contract is an equation but for memory.
pub fn read_sessions(alloc: Global, bytes: &[u8]) -> Result<Items<Session>, SessionFault>
    ensures read { IfOk result (λ sessions. sessions_of bytes.now ≡ Ok sessions) }
    ensures fault { IfErr result (λ e. (e ≡ Memory) ⊎ (sessions_of bytes.now ≡ Err e)) }
{
    let lines = lines_of(alloc, bytes)?;
    if let Some((number, mistake)) = misplaced(lines.as_slice()) {
        return Err(SessionFault::Form(number, mistake));
    }
    Ok(sessions_in(alloc, lines.as_slice())?)
}
