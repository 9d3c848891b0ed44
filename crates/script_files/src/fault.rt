//! Why the sessions of a file aren't read.

use std::alloc::AllocError;
use thiserror::Error;

/// Why a line can't stand behind those before it.
#[derive(Clone, Copy, Debug, PartialEq, Eq)]
pub enum Mistake {
    /// No session has begun: one begins with `# NAME`.
    NoHeading,
    /// No line is sent right above: a reply stands below its line.
    NoLine,
    /// What stands here comes many times, which ends with an empty line: no heading and no number of times can.
    Repeated,
    /// A heading ends with a number of modules that isn't from 1 to 4.
    Modules,
    /// It begins with none of the marks, with a space behind.
    NoMark,
}

/// Why the sessions of a file aren't read.
#[derive(Clone, Copy, Debug, PartialEq, Eq, Error)]
pub enum SessionFault {
    /// The line of this number, counted from 1, can't stand behind those before it.
    #[error("line {0} can't stand here")]
    Form(u64, Mistake),
    /// Memory was refused.
    #[error("out of memory")]
    Memory,
}

impl From<AllocError> for SessionFault {
    ghost use Rattle.std.specs.Prelude.{◌≡◌};
    ghost use Rattle.script_files.specs.declared.fault.SessionFault.TheVariants.{Memory};

    ghost from_gives = { λ _ e. e ≡ Memory };

    fn from(_: AllocError) -> SessionFault {
        SessionFault::Memory
    }
}
