//! The exit status of tests.

ghost use Rattle.std.specs.Prelude.{◌≡◌};
ghost use Rattle.cli_test.specs.Statuses.{test_status};

use crate::tally::Tally;
use cli_words::{OKAY, REFUSED, status_of};
use ent_wire::ServeFault;

/// The exit status of tests, by how many passed and how many failed: all passed only where there is one. A fault is
/// told on standard error.
///
/// Its contract is an equation.
pub(crate) fn test_status(rt: &impl Eprint, tested: Result<Tally, ServeFault>) -> u8
    ensures { result ≡ test_status tested }
{
    match tested {
        Ok(tally) if tally.failed == 0 && tally.passed > 0 => OKAY,
        Ok(_) => REFUSED,
        Err(fault) => status_of(rt, fault),
    }
}
