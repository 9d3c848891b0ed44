//! Which states the command line asks to be compared.

ghost use Rattle.std.specs.Prelude.{◌≡◌, [], codes, option_map, unwrap_or};
ghost use Rattle.clap.specs.Matches.{found_of};
ghost use Rattle.clap.specs.Walk.{first_of, rows_of};
ghost use Rattle.cli_words.specs.Options.{AreStates, failing_named, form_of};
ghost use Rattle.cli_words.specs.Sources.{path_named, path_of};

use crate::asked_tests::is_given;
use crate::sources::Source;
use crate::words::{CHANGES, FAIL_ON, FIRST_STATE, MARKDOWN, TEXT};
use clap::ArgMatches;

/// The states that are compared.
#[derive(Clone, Copy, Debug, PartialEq, Eq)]
pub struct AskedStates<'a> {
    /// The source of the lines of a state.
    pub state: Source<'a>,
    /// The source of the changes, or of the lines of another state.
    pub changes: Source<'a>,
    /// How what differs is written.
    pub form: Form,
    /// Which differences fail, where that is said.
    pub failing: Option<Failing>,
}

/// How what differs is to be written: as a table or as Markdown where the option for it is given.
fn form_of(options: &ArgMatches<'_>) -> Form
    ensures { result ≡ form_of (first_of (codes "text") (rows_of (found_of options.now)))
        (first_of (codes "markdown") (rows_of (found_of options.now))) }
{
    if is_given(options, TEXT) {
        Form::Table
    } else if is_given(options, MARKDOWN) {
        Form::Markdown
    } else {
        Form::Json
    }
}

/// Which differences a word of the command line says: the third of those that it takes is any.
fn failing_named(word: &str) -> Failing
    ensures { result ≡ failing_named word.now }
{
    if word == "gain" {
        Failing::Gain
    } else if word == "loss" {
        Failing::Loss
    } else {
        Failing::Any
    }
}

/// Which differences fail, where that is said.
fn failing_of(options: &ArgMatches<'_>) -> Option<Failing>
    ensures { result ≡ option_map failing_named (first_of (codes "fail-on") (rows_of (found_of options.now))) }
{
    match options.get_str(FAIL_ON) {
        Some(word) => Some(failing_named(word)),
        None => None,
    }
}

/// The source that the argument of that name names.
fn source_at<'a>(options: &ArgMatches<'a>, argument: &str) -> Source<'a>
    ensures { path_of result ≡ path_named (unwrap_or (first_of argument.now (rows_of (found_of options.now))) []) }
{
    Source::named(options.get_str(argument).unwrap_or(""))
}

/// The states that the arguments of `compare` name.
pub(crate) fn asked_states<'a>(options: &ArgMatches<'a>) -> AskedStates<'a>
    ensures { AreStates (rows_of (found_of options.now)) result }
{
    AskedStates {
        state: source_at(options, FIRST_STATE),
        changes: source_at(options, CHANGES),
        form: form_of(options),
        failing: failing_of(options),
    }
}

/// How what differs is written.
#[derive(Clone, Copy, Debug, PartialEq, Eq)]
pub enum Form {
    /// As a line of JSON.
    Json,
    /// As a table that a person reads.
    Table,
    /// As Markdown for those who look a change over.
    Markdown,
}

/// Which differences fail.
#[derive(Clone, Copy, Debug, PartialEq, Eq)]
pub enum Failing {
    /// That a request gains Permit.
    Gain,
    /// That a request loses it.
    Loss,
    /// Any.
    Any,
}
