//! Equal targets.

ghost use Rattle.std.specs.Prelude.{◌≡◌, IfOk};

use crate::copied::{Copied, copied_all};
use crate::expression::copied_designator;
use ent_policy::{AllOf, AnyOf, Match, Target};
use std::alloc::{AllocError, Global};

impl Copied for Match {
    fn copied(&self, alloc: Global) -> Result<Match, AllocError> {
        Ok(Match {
            function: self.function,
            literal: self.literal.copy(alloc)?,
            designator: copied_designator(alloc, &self.designator)?,
        })
    }
}

impl Copied for AllOf {
    fn copied(&self, alloc: Global) -> Result<AllOf, AllocError> {
        Ok(AllOf {
            matches: copied_all(alloc, self.matches.as_slice())?,
        })
    }
}

impl Copied for AnyOf {
    fn copied(&self, alloc: Global) -> Result<AnyOf, AllocError> {
        Ok(AnyOf {
            all_of: copied_all(alloc, self.all_of.as_slice())?,
        })
    }
}

/// An equal target.
///
/// # Errors
///
/// `AllocError` if memory runs out.
///
/// Its contract is an equation but for memory.
pub fn copied_target(alloc: Global, target: &Target) -> Result<Target, AllocError>
    ensures { IfOk result (λ copy. copy ≡ target.now) }
{
    Ok(Target {
        any_of: copied_all(alloc, target.any_of.as_slice())?,
    })
}
