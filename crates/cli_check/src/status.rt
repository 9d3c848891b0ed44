//! The exit status of a check.

ghost use Rattle.std.specs.Prelude.{◌≡◌};
ghost use Rattle.cli_check.specs.Statuses.{checked_status, found_status};

use crate::found::FaultCount;
use cli_words::{OKAY, REFUSED, Unmet, unmet_status};

/// The exit status by what a check found: a warning counts where that is asked for.
fn found_status(found: FaultCount, is_strict: bool) -> u8
    ensures { result ≡ found_status is_strict found }
{
    if found.faults == 0 && (found.warnings == 0 || !is_strict) {
        OKAY
    } else {
        REFUSED
    }
}

/// The exit status of a check, where a warning counts or not.
pub(crate) fn check_status(is_strict: bool, checked: Result<FaultCount, Unmet>) -> u8
    ensures { result ≡ checked_status is_strict checked }
{
    match checked {
        Ok(found) => found_status(found, is_strict),
        Err(unmet) => unmet_status(unmet),
    }
}
