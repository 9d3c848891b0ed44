//! Why a document is refused.

ghost use Rattle.std.specs.Prelude.{◌≡◌};
ghost use Rattle.ent_policy.specs.Fault.{sub_code};

use std::alloc::{AllocError, AllocFailed};
use thiserror::Error;

/// What is wrong with a document, in the order in which faults are looked for over the whole document.
#[derive(Clone, Copy, Debug, PartialEq, Eq, Error)]
pub enum DocFault {
    #[error("a key is unknown or missing, or what stands at it has the wrong form")]
    Form,
    #[error("an identifier is empty or has more than 256 bytes, or two rules of a policy have the same one")]
    Identifier,
    #[error("a version isn't 1 to 8 numbers of at most 9 digits with dots between them, or a version pattern can't be read")]
    Version,
    #[error("a rule or policy combining algorithm is unknown")]
    Algorithm,
    #[error("a function is unknown")]
    Function,
    #[error("a variable is defined twice, not at all, or through itself")]
    Variable,
    #[error("a list has more than 256 members, or the document more than 65,536 expressions or 32 references")]
    Size,
    #[error("expressions or policy sets nest more than 16 deep")]
    Depth,
    #[error("a data type is unknown, a value isn't of its type, or an expression has the wrong type")]
    Type,
}

impl DocFault {
    /// The sub-code by which the fault is told.
    ///
    /// Its contract is an equation.
    pub fn code(self) -> u8
        ensures { result ≡ sub_code self }
    {
        match self {
            DocFault::Function => 1,
            DocFault::Type => 2,
            DocFault::Algorithm => 3,
            DocFault::Variable => 4,
            DocFault::Depth => 5,
            DocFault::Size => 6,
            DocFault::Version => 7,
            DocFault::Identifier => 8,
            DocFault::Form => 9,
        }
    }
}

/// Why a document isn't had: its first fault, or want of memory.
#[derive(Clone, Copy, Debug, PartialEq, Eq, Error)]
pub enum CheckFault {
    #[error("{0}")]
    Doc(DocFault),
    #[error("out of memory")]
    Memory,
}

impl From<DocFault> for CheckFault {
    ghost use Rattle.std.specs.Prelude.{◌≡◌};
    ghost use Rattle.ent_policy.specs.declared.fault.CheckFault.TheVariants.{Doc};

    ghost from_gives = { λ fault e. e ≡ Doc fault };

    fn from(fault: DocFault) -> CheckFault {
        CheckFault::Doc(fault)
    }
}

impl From<AllocError> for CheckFault {
    ghost use Rattle.std.specs.Prelude.{◌≡◌};
    ghost use Rattle.ent_policy.specs.declared.fault.CheckFault.TheVariants.{Memory};

    ghost from_gives = { λ _ e. e ≡ Memory };

    fn from(_: AllocError) -> CheckFault {
        CheckFault::Memory
    }
}

impl<T: Drop> From<AllocFailed<T>> for CheckFault {
    ghost use Rattle.std.specs.Prelude.{◌≡◌};
    ghost use Rattle.ent_policy.specs.declared.fault.CheckFault.TheVariants.{Memory};

    ghost from_gives = { λ _ e. e ≡ Memory };

    fn from(_: AllocFailed<T>) -> CheckFault {
        CheckFault::Memory
    }
}
