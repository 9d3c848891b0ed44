//! Why a value isn't read.

use std::alloc::AllocError;
use thiserror::Error;

/// Why a text isn't read as a value.
#[derive(Clone, Copy, Debug, PartialEq, Eq, Error)]
pub enum ValueFault {
    /// The text is no value of the type.
    #[error("the text is no value of its type")]
    BadValue,
    /// Memory was refused.
    #[error("out of memory")]
    Memory,
}

impl From<AllocError> for ValueFault {
    ghost use Rattle.std.specs.Prelude.{◌≡◌};
    ghost use Rattle.ent_values.specs.declared.fault.ValueFault.TheVariants.{Memory};

    ghost from_gives = { λ _ e. e ≡ Memory };

    fn from(_: AllocError) -> ValueFault {
        ValueFault::Memory
    }
}
