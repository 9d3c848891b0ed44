//! The exit status of a comparison.

ghost use Rattle.std.specs.Prelude.{◌≡◌};
ghost use Rattle.cli_compare.specs.Statuses.{compare_status, different_status, fails};

use crate::differing::Ending;
use cli_words::{BROKEN, Failing, OKAY, REFUSED, Unmet, unmet_status};

/// A difference was found that is to fail.
const FAILING: u8 = 4;

/// Whether differences fail, of which a request gains Permit or not, and one loses it or not.
fn fails(failing: Failing, gain: bool, loss: bool) -> bool
    ensures { result ≡ fails failing gain loss }
{
    match failing {
        Failing::Gain => gain,
        Failing::Loss => loss,
        Failing::Any => true,
    }
}

/// The exit status where tables differ: where it is said which differences fail, the others don't count.
fn different_status(failing: Option<Failing>, gain: bool, loss: bool) -> u8
    ensures { result ≡ different_status failing gain loss }
{
    match failing {
        None => REFUSED,
        Some(failing) if fails(failing, gain, loss) => FAILING,
        Some(_) => OKAY,
    }
}

/// The exit status of a comparison, by which differences fail, where that is said.
pub(crate) fn compare_status(failing: Option<Failing>, compared: Result<Ending, Unmet>) -> u8
    ensures { result ≡ compare_status failing compared }
{
    match compared {
        Ok(Ending::Same) => OKAY,
        Ok(Ending::Different(gain, loss)) => different_status(failing, gain, loss),
        Ok(Ending::Refused) => BROKEN,
        Err(unmet) => unmet_status(unmet),
    }
}
