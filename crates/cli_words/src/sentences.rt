//! What is said on standard error of faults and of the words of the command line.

ghost use Rattle.std.specs.Prelude.{◌≡◌};
ghost use Rattle.cli_words.specs.Sentences.{fault_sentence, input_twice_sentence, junit_sentence, words_sentence};

use crate::words::WordsFault;
use ent_wire::ServeFault;

/// What is said of a fault by which serving or a check ended early.
///
/// Its contract is an equation.
pub fn fault_sentence(fault: ServeFault) -> &'static str
    ensures { result.now ≡ fault_sentence fault }
{
    match fault {
        ServeFault::Read => "review: read fault",
        ServeFault::Write => "review: write fault",
        ServeFault::Memory => "review: out of memory",
    }
}

/// What is said where the words of the command line can't be had.
///
/// Its contract is an equation.
pub(crate) fn words_sentence(fault: WordsFault) -> &'static str
    ensures { result.now ≡ words_sentence fault }
{
    match fault {
        WordsFault::NotText => "review: a word of the command line isn't UTF-8",
        WordsFault::Memory => fault_sentence(ServeFault::Memory),
    }
}

/// What is said where standard input is named more than once.
///
/// Its contract is an equation.
pub(crate) fn input_twice_sentence() -> &'static str
    ensures { result.now ≡ input_twice_sentence }
{
    "review: standard input is named more than once"
}

/// What is said where a file for JUnit XML can't be meant.
///
/// Its contract is an equation.
pub(crate) fn junit_sentence() -> &'static str
    ensures { result.now ≡ junit_sentence }
{
    "review: --junit wants a file of its own, and no --list"
}
