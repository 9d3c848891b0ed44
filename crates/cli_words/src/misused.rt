//! Words of the command line that can't be meant together.

ghost use Rattle.std.specs.Prelude.{OnErr};
ghost use Rattle.cli_words.specs.Options.{NameInputTwice};

use crate::asked_check::AskedCheck;
use crate::asked_states::AskedStates;
use crate::asked_tests::AskedTests;
use crate::sentences::{input_twice_sentence, junit_sentence};
use crate::sources::Source;
use crate::status::Unmet;

/// How often standard input is named.
fn inputs(words: &[&str], others: &[Option<Source<'_>>]) -> usize {
    let mut count = 0usize;
    for &word in words {
        if matches!(Source::named(word), Source::Input) {
            count = count.saturating_add(1);
        }
    }
    for &other in others {
        if matches!(other, Some(Source::Input)) {
            count = count.saturating_add(1);
        }
    }
    count
}

/// Passes words that name standard input once at most: who reads it again finds nothing.
fn pass_inputs(
    rt: &impl Eprint,
    words: &[&str],
    others: &[Option<Source<'_>>],
) -> Result<(), Unmet> {
    if inputs(words, others) < 2 {
        return Ok(());
    }
    Err(refuse_inputs(rt))
}

/// Says on standard error that standard input is named more than once.
fn refuse_inputs(rt: &impl Eprint) -> Unmet {
    let _ = rt.eprintln(input_twice_sentence());
    Unmet::Refused
}

/// Passes what is to be checked; where its words can't be meant, that is told on standard error.
///
/// Its contract leaves open: all of it: which words are refused, and what is told of them, is tried.
pub fn pass_check(rt: &impl Eprint, asked: &AskedCheck<'_, '_>) -> Result<(), Unmet> {
    let others = [asked.attributes, asked.stored, asked.lines];
    pass_inputs(rt, asked.files, &others)
}

/// Passes states that are to be compared, as `pass_check` does.
///
/// Its contract leaves open: whether it refuses the states that it may refuse.
pub fn pass_states(rt: &impl Eprint, states: &AskedStates<'_>) -> Result<(), Unmet>
    ensures { OnErr result (NameInputTwice states.now) }
{
    match (states.state, states.changes) {
        (Source::Input, Source::Input) => Err(refuse_inputs(rt)),
        _ => Ok(()),
    }
}

/// Whether a file for JUnit XML can't be written: no test runs, it isn't a file, or it is one that is read.
fn is_misused(tests: &AskedTests<'_, '_>, path: &str) -> bool {
    if tests.listed || matches!(Source::named(path), Source::Input) {
        return true;
    }
    if let Some(Source::File(state)) = tests.state {
        if state == path {
            return true;
        }
    }
    for &word in tests.files {
        if word == path {
            return true;
        }
    }
    false
}

/// Passes tests that are to run, as `pass_check` does.
///
/// Its contract leaves open: all of it: which words are refused, and what is told of them, is tried.
pub fn pass_tests(rt: &impl Eprint, tests: &AskedTests<'_, '_>) -> Result<(), Unmet> {
    if let Some(path) = tests.junit {
        if is_misused(tests, path) {
            let _ = rt.eprintln(junit_sentence());
            return Err(Unmet::Refused);
        }
    }
    pass_inputs(rt, tests.files, &[tests.state])
}
