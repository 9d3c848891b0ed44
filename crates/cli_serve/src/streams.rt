//! Standard input to standard output: served, or the lines of a dump.

ghost use Rattle.std.specs.Prelude.{◌≡◌, Result, ⊤, ℕ};
ghost use Rattle.ent_dump.specs.declared.fault.LinesFault.{LinesFault};
ghost use Rattle.ent_wire.specs.declared.fault.ServeFault.{ServeFault};
ghost use Rattle.cli_words.specs.Options.{IsFew};
ghost use Rattle.cli_serve.specs.Statuses.{lines_status, serve_status};
ghost use Rattle.ent_table.specs.Limits.{IsWithinGreatest};

use crate::running::serve_from;
use crate::sentences::terminal_sentence;
use crate::status::{lines_status, serve_status};
use crate::watching::Watched;
use cli_words::{Modules, Source, status_of, tell_cause};
use ent_line::{LinesFault, dump_lines};
use ent_table::Limits;
use ent_wire::ServeFault;
use std::io;
use std::io::{BufReader, BufWriter};

/// Serves standard input to standard output, with modules of those numbers and within those limits, and gives the exit
/// status. Somebody at a terminal is told on standard error how to use it.
///
/// Its contract leaves open: how serving ended: any status of an end would do. Trials and stored runs show which.
pub fn serve_input<R: Input + Print + Eprint + AllocGlobal>(
    rt: &R,
    modules: Modules,
    limits: Limits,
    is_terminal: bool,
) -> u8
    requires attributes { IsFew modules.attributes }
    requires policies { IsFew modules.policies }
    requires limits { IsWithinGreatest limits }
    ensures { (served : Result ℕ ServeFault) × (result ≡ serve_status served) }
{
    if is_terminal {
        let _ = rt.eprintln(terminal_sentence());
    }
    let alloc = rt.alloc();
    let Ok(mut reader) = BufReader::new(alloc, Watched::new(rt.reader())) else {
        return status_of(rt, ServeFault::Memory);
    };
    let Ok(mut writer) = BufWriter::new(alloc, io::writer(rt)) else {
        return status_of(rt, ServeFault::Memory);
    };
    let served = serve_from(alloc, modules, limits, &mut reader, &mut writer);
    let status = serve_status(rt, served);
    tell_cause(rt, Source::Input, reader.get_ref().cause());
    status
}

/// Writes the lines of the dump on standard input to standard output, and gives the exit status.
///
/// Its contract leaves open: how writing ended: any status of an end would do. Trials show which.
pub fn write_lines<R: Input + Print + Eprint + AllocGlobal>(rt: &R) -> u8
    ensures { (written : Result ⊤ LinesFault) × (result ≡ lines_status written) }
{
    let alloc = rt.alloc();
    let Ok(mut writer) = BufWriter::new(alloc, io::writer(rt)) else {
        return status_of(rt, ServeFault::Memory);
    };
    let mut reader = Watched::new(rt.reader());
    let written = dump_lines(alloc, &mut reader, &mut writer);
    let status = lines_status(rt, written);
    tell_cause(rt, Source::Input, reader.cause());
    status
}
