//! The exit statuses of faults and of the words of the command line, and what all have in common.

ghost use Rattle.std.specs.Prelude.{◌≡◌};
ghost use Rattle.clap.specs.Values.{kind_of};
ghost use Rattle.cli_words.specs.Statuses.{fault_status, limit_status, unmet_status, usage_status, words_status};
ghost use Rattle.cli_words.specs.declared.status.Unmet.TheVariants as unmet;

use crate::sentences::{fault_sentence, words_sentence};
use crate::sources::Shown;
use crate::words::{WordsFault, WrongLimit};
use clap::error::ErrorKind;
use ent_wire::ServeFault;

/// All went well.
pub const OKAY: u8 = 0;

/// The command line can't be used, a file was refused, the input is no dump, or a test failed.
pub const REFUSED: u8 = 1;

/// A limit can't be taken, or reading or writing failed.
pub const BROKEN: u8 = 2;

/// Memory was wanting.
pub const NO_MEMORY: u8 = 3;

/// Why what was asked for wasn't done; what there is to say of it was said on standard error.
#[derive(Clone, Copy, Debug, PartialEq, Eq)]
pub enum Unmet {
    /// The words can't be meant together, or a file was refused.
    Refused,
    /// Reading or writing failed, or memory was wanting.
    Failed(ServeFault),
}

impl From<ServeFault> for Unmet {
    ghost from_gives = { λ fault u. u ≡ unmet.Failed fault };

    fn from(fault: ServeFault) -> Unmet {
        Unmet::Failed(fault)
    }
}

/// Says on standard error why something ended early, and gives why.
///
/// Its contract is an equation.
pub fn tell(rt: &impl Eprint, fault: ServeFault) -> ServeFault
    ensures { result ≡ fault }
{
    let _ = rt.eprintln(fault_sentence(fault));
    fault
}

/// The exit status of a fault.
///
/// Its contract is an equation.
pub fn fault_status(fault: ServeFault) -> u8
    ensures { result ≡ fault_status fault }
{
    match fault {
        ServeFault::Read | ServeFault::Write => BROKEN,
        ServeFault::Memory => NO_MEMORY,
    }
}

/// Says on standard error why serving ended early, and gives the exit status for it.
///
/// Its contract is an equation.
pub fn status_of(rt: &impl Eprint, fault: ServeFault) -> u8
    ensures { result ≡ fault_status fault }
{
    fault_status(tell(rt, fault))
}

/// The exit status where what was asked for wasn't done.
///
/// Its contract is an equation.
pub fn unmet_status(unmet: Unmet) -> u8
    ensures { result ≡ unmet_status unmet }
{
    match unmet {
        Unmet::Refused => REFUSED,
        Unmet::Failed(fault) => fault_status(fault),
    }
}

/// Says on standard error why the words of the command line can't be had, and gives the exit status for it.
///
/// Its contract is an equation.
pub fn words_status(rt: &impl Eprint, fault: WordsFault) -> u8
    ensures { result ≡ words_status fault }
{
    let _ = rt.eprintln(words_sentence(fault));
    match fault {
        WordsFault::NotText => REFUSED,
        WordsFault::Memory => NO_MEMORY,
    }
}

/// Says on standard error that a limit can't be taken, and why, and gives the exit status for it.
///
/// Its contract is an equation.
pub fn limit_status(rt: &impl Eprint, wrong: WrongLimit<'_>) -> u8
    ensures { result ≡ limit_status }
{
    let _ = eprintln!(rt;
        "review: --{} takes a whole number from 1 to {}, and not '{}'",
        wrong.option,
        wrong.greatest,
        Shown(wrong.word)
    );
    BROKEN
}

/// The exit status where the command line asks for help, or can't be used.
///
/// Its contract is an equation.
pub fn usage_status(error: &clap::Error) -> u8
    ensures { result ≡ usage_status (kind_of error.now) }
{
    match error.kind() {
        ErrorKind::DisplayHelp | ErrorKind::DisplayVersion => OKAY,
        ErrorKind::OutOfMemory => NO_MEMORY,
        _ => REFUSED,
    }
}
