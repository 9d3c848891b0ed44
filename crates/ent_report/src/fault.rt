//! Why a desk has no answer.

use std::alloc::AllocError;
use thiserror::Error;

/// Why there are no notices.
#[derive(Clone, Copy, Debug, PartialEq, Eq, Error)]
pub enum NoticeFault {
    /// The session has no mark, or the table at a serial isn't known.
    #[error("no mark")]
    NoMark,
    /// There is no memory left for the notices.
    #[error("out of memory")]
    Memory,
}

/// Why there is no report.
#[derive(Clone, Copy, Debug, PartialEq, Eq, Error)]
pub enum ReportFault {
    /// A name isn't listed.
    #[error("not there")]
    NotThere,
    /// There is no memory left for the report.
    #[error("out of memory")]
    Memory,
}

impl From<AllocError> for NoticeFault {
    ghost use Rattle.std.specs.Prelude.{◌≡◌};
    ghost use Rattle.ent_report.specs.declared.fault.NoticeFault.TheVariants.{Memory};

    ghost from_gives = { λ _ e. e ≡ Memory };

    fn from(_: AllocError) -> NoticeFault {
        NoticeFault::Memory
    }
}

impl From<AllocError> for ReportFault {
    ghost use Rattle.std.specs.Prelude.{◌≡◌};
    ghost use Rattle.ent_report.specs.declared.fault.ReportFault.TheVariants.{Memory};

    ghost from_gives = { λ _ e. e ≡ Memory };

    fn from(_: AllocError) -> ReportFault {
        ReportFault::Memory
    }
}
