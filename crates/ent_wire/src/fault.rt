//! Why serving ended early.

use std::alloc::{AllocError, AllocFailed};
use thiserror::Error;

/// Why `serve` ended before the end of its input.
#[derive(Clone, Copy, Debug, PartialEq, Eq, Error)]
pub enum ServeFault {
    /// The reader failed. What stood behind the last newline wasn't handled.
    #[error("read fault")]
    Read,
    /// The writer failed. Of the last reply only a front was written.
    #[error("write fault")]
    Write,
    /// There was no memory to begin with. Nothing was read.
    #[error("out of memory")]
    Memory,
}

impl From<AllocError> for ServeFault {
    ghost use Rattle.std.specs.Prelude.{◌≡◌};
    ghost use Rattle.ent_wire.specs.declared.fault.ServeFault.TheVariants.{Memory};

    ghost from_gives = { λ _ e. e ≡ Memory };

    fn from(_: AllocError) -> ServeFault {
        ServeFault::Memory
    }
}

impl<T: Drop> From<AllocFailed<T>> for ServeFault {
    ghost use Rattle.std.specs.Prelude.{◌≡◌};
    ghost use Rattle.ent_wire.specs.declared.fault.ServeFault.TheVariants.{Memory};

    ghost from_gives = { λ _ e. e ≡ Memory };

    fn from(_: AllocFailed<T>) -> ServeFault {
        ServeFault::Memory
    }
}
