//! The exit statuses of serving and of writing the lines of a dump.

ghost use Rattle.std.specs.Prelude.{◌≡◌};
ghost use Rattle.cli_serve.specs.Statuses.{lines_fault_status, lines_status, serve_status};

use crate::sentences::lines_sentence;
use cli_words::{BROKEN, NO_MEMORY, OKAY, REFUSED, status_of};
use ent_line::LinesFault;
use ent_wire::ServeFault;

/// The exit status of serving; a fault is told on standard error.
///
/// Its contract is an equation.
pub(crate) fn serve_status(rt: &impl Eprint, served: Result<u64, ServeFault>) -> u8
    ensures { result ≡ serve_status served }
{
    match served {
        Ok(_) => OKAY,
        Err(fault) => status_of(rt, fault),
    }
}

/// Says on standard error why the lines of a dump weren't written, or not all, and gives the exit status for it.
fn lines_status_of(rt: &impl Eprint, fault: LinesFault) -> u8
    ensures { result ≡ lines_fault_status fault }
{
    let _ = rt.eprintln(lines_sentence(fault));
    match fault {
        LinesFault::NotDump => REFUSED,
        LinesFault::Read | LinesFault::Write => BROKEN,
        LinesFault::Memory => NO_MEMORY,
    }
}

/// The exit status of writing the lines of a dump; a fault is told on standard error.
///
/// Its contract is an equation.
pub fn lines_status(rt: &impl Eprint, written: Result<(), LinesFault>) -> u8
    ensures { result ≡ lines_status written }
{
    match written {
        Ok(()) => OKAY,
        Err(fault) => lines_status_of(rt, fault),
    }
}
