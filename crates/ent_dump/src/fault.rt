//! Why no lines were written, or not all.

use std::alloc::{AllocError, AllocFailed};
use thiserror::Error;

/// Why [`crate::dump_lines`] didn't write the lines of a dump.
#[derive(Clone, Copy, Debug, PartialEq, Eq, Error)]
pub enum LinesFault {
    /// The input is no reply to `dump`. Nothing was written.
    #[error("not a dump")]
    NotDump,
    /// The reader failed, or had to be asked too often. Nothing was written.
    #[error("read fault")]
    Read,
    /// The writer failed. Of the lines only a front was written.
    #[error("write fault")]
    Write,
    /// Memory ran out. Nothing was written.
    #[error("out of memory")]
    Memory,
}

impl From<AllocError> for LinesFault {
    ghost use Rattle.std.specs.Prelude.{◌≡◌};
    ghost use Rattle.ent_dump.specs.declared.fault.LinesFault.TheVariants.{Memory};

    ghost from_gives = { λ _ e. e ≡ Memory };

    fn from(_: AllocError) -> LinesFault {
        LinesFault::Memory
    }
}

impl<T: Drop> From<AllocFailed<T>> for LinesFault {
    ghost use Rattle.std.specs.Prelude.{◌≡◌};
    ghost use Rattle.ent_dump.specs.declared.fault.LinesFault.TheVariants.{Memory};

    ghost from_gives = { λ _ e. e ≡ Memory };

    fn from(_: AllocFailed<T>) -> LinesFault {
        LinesFault::Memory
    }
}
