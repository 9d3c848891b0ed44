//! What is said on standard error beside what is served.

ghost use Rattle.std.specs.Prelude.{◌≡◌};
ghost use Rattle.cli_serve.specs.Sentences.{lines_sentence, terminal_sentence};

use cli_words::fault_sentence;
use ent_line::LinesFault;
use ent_wire::ServeFault;

/// What is said where the lines of a dump weren't written, or not all.
///
/// Its contract is an equation.
pub(crate) fn lines_sentence(fault: LinesFault) -> &'static str
    ensures { result.now ≡ lines_sentence fault }
{
    match fault {
        LinesFault::NotDump => "review: not a dump",
        LinesFault::Read => fault_sentence(ServeFault::Read),
        LinesFault::Write => fault_sentence(ServeFault::Write),
        LinesFault::Memory => fault_sentence(ServeFault::Memory),
    }
}

/// What somebody is told who serves lines that are typed at a terminal.
///
/// Its contract is an equation.
pub(crate) fn terminal_sentence() -> &'static str
    ensures { result.now ≡ terminal_sentence }
{
    "review: one command a line, as docs/COMMANDS.md says; Ctrl-D at the beginning of a line ends; a terminal cuts lines at 4,095 bytes"
}
