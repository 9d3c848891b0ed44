//! How many tests passed, and how many failed.

ghost use Rattle.std.specs.Prelude.{◌≡◌, ◌+◌, ◌-◌, ◌^◌, min};
ghost use Rattle.ent_wire.specs.Pieces.{Sends};
ghost use Rattle.cli_test.specs.Testing.{tally_line, tally_of};

use ent_wire::{ServeFault, send_all};
use itoa::Buffer;
use script_junit::{Suite, errors, failed};
use std::io::Write;

/// How many tests passed, and how many failed.
#[derive(Clone, Copy, Debug, PartialEq, Eq)]
pub struct Tally {
    /// The tests whose replies were all as expected.
    pub passed: u64,
    /// The other tests, and the files that can't be read as tests.
    pub failed: u64,
}

impl Tally {
    /// No test.
    ///
    /// Its contract is an equation.
    pub(crate) fn none() -> Tally
        ensures passed { result.passed ≡ 0 }
        ensures failed { result.failed ≡ 0 }
    {
        Tally {
            passed: 0,
            failed: 0,
        }
    }

    /// One test, which failed.
    ///
    /// Its contract is an equation.
    pub(crate) fn one_failed() -> Tally
        ensures { result ≡ record { passed = 0; failed = 1 } }
    {
        Tally {
            passed: 0,
            failed: 1,
        }
    }

    /// The tests of a file. One whose tests couldn't run counts as a test that failed.
    ///
    /// Its contract is an equation.
    pub fn of(suite: &Suite<'_>) -> Tally
        ensures { result ≡ tally_of suite.now }
    {
        let cases = suite.cases.as_slice();
        let failed = failed(cases);
        Tally {
            passed: cases.len() as u64 - failed,
            failed: failed + errors(&suite.error),
        }
    }

    /// The tests of both, each number at most `u64::MAX`.
    ///
    /// Its contract is an equation.
    pub(crate) fn and(self, other: Tally) -> Tally
        ensures passed { result.passed ≡ min (self.passed + other.passed) (2 ^ 64 - 1) }
        ensures failed { result.failed ≡ min (self.failed + other.failed) (2 ^ 64 - 1) }
    {
        Tally {
            passed: self.passed.saturating_add(other.passed),
            failed: self.failed.saturating_add(other.failed),
        }
    }
}

/// Writes how many tests passed and how many failed, as `N passed, M failed` with a newline.
///
/// Its contract leaves open: how much a failing writer took.
pub fn send_tally<W: Write>(writer: &mut W, tally: Tally) -> Result<(), ServeFault>
    ensures { Sends (W.contents writer.old) (W.contents writer.new) (tally_line tally) result }
{
    let mut first = Buffer::new();
    let mut second = Buffer::new();
    let passed = first.format(tally.passed).as_bytes();
    let middle = " passed, ".as_bytes();
    let failed = second.format(tally.failed).as_bytes();
    let end = " failed\n".as_bytes();
    send_all(writer, &[passed, middle, failed, end])
}
