//! Why a request isn't read.

use ent_values::ValueFault;
use std::alloc::{AllocError, AllocFailed};
use thiserror::Error;

/// Why a JSON value isn't read as a request.
#[derive(Clone, Copy, Debug, PartialEq, Eq, Error)]
pub enum RequestFault {
    /// The value asks for no request.
    #[error("the value asks for no request")]
    Bad,
    /// Memory was refused.
    #[error("out of memory")]
    Memory,
}

impl From<AllocError> for RequestFault {
    ghost use Rattle.std.specs.Prelude.{◌≡◌};
    ghost use Rattle.ent_profile.specs.declared.fault.RequestFault.TheVariants.{Memory};

    ghost from_gives = { λ _ e. e ≡ Memory };

    fn from(_: AllocError) -> RequestFault {
        RequestFault::Memory
    }
}

impl From<ValueFault> for RequestFault {
    ghost use Rattle.std.specs.Prelude.{◌≡◌};
    ghost use Rattle.ent_profile.specs.Faults.{fault_of};

    ghost from_gives = { λ fault e. e ≡ fault_of fault };

    fn from(fault: ValueFault) -> RequestFault {
        match fault {
            ValueFault::BadValue => RequestFault::Bad,
            ValueFault::Memory => RequestFault::Memory,
        }
    }
}
