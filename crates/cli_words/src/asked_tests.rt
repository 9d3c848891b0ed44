//! Which tests the command line asks for.

ghost use Rattle.std.specs.Prelude.{◌≡◌, codes, option_map, IfNone, IfSome, List, ℕ, Some};
ghost use Rattle.clap.specs.Matches.{found_of, one_text};
ghost use Rattle.clap.specs.Walk.{all_of, first_of, rows_of};
ghost use Rattle.cli_words.specs.Options.{AreAsked, IsShare, is_given};
ghost use Rattle.cli_words.specs.Sources.{path_named, path_of};

use crate::sources::Source;
use crate::words::{COVERAGE, COVERAGE_MIN, FILE, JUNIT, LIST, RUN, STATE};
use clap::ArgMatches;

/// Which tests are asked for.
#[derive(Clone, Copy, Debug, PartialEq, Eq)]
pub struct AskedTests<'m, 'a> {
    /// The words that name the files.
    pub files: &'m [&'a str],
    /// The source of the lines with which each test begins, if there is one.
    pub state: Option<Source<'a>>,
    /// What the tests are called that run, where not all do.
    pub only: Option<&'a str>,
    /// Whether they are listed, and none runs.
    pub listed: bool,
    /// The path of the file to which what becomes of them is written as JUnit XML, if there is one.
    pub junit: Option<&'a str>,
    /// Whether it is told which rules give no decision.
    pub covered: bool,
    /// How many of a hundred rules have to give one, if that is said.
    pub least: Option<usize>,
}

/// Whether an option without a value is given.
pub(crate) fn is_given(options: &ArgMatches<'_>, option: &str) -> bool
    ensures { result ≡ is_given (first_of option.now (rows_of (found_of options.now))) }
{
    match options.get_str(option) {
        Some(text) => text == "true",
        None => false,
    }
}

/// The source that the option for the lines with which each test begins names, if it is given.
fn state_of<'a>(options: &ArgMatches<'a>) -> Option<Source<'a>>
    ensures { option_map path_of result
        ≡ option_map path_named (first_of (codes "state") (rows_of (found_of options.now))) }
{
    match options.get_str(STATE) {
        Some(word) => Some(Source::named(word)),
        None => None,
    }
}

/// The word that an option gives, if it is given.
fn word_of<'a>(options: &ArgMatches<'a>, option: &str) -> Option<&'a str>
    ensures { option_map (λ n. n.now) result ≡ first_of option.now (rows_of (found_of options.now)) }
{
    options.get_str(option)
}

/// How many of a hundred rules have to give a decision, if an option says it.
fn least_of(options: &ArgMatches<'_>) -> Option<usize>
    ensures { IsShare (one_text (found_of options.now) (codes "coverage-min")) result }
{
    options.get_one::<usize>(COVERAGE_MIN)
}

/// The tests that the options of `test` ask for; none where no file is named.
pub(crate) fn asked_tests<'m, 'a: 'm>(options: &'m ArgMatches<'a>) -> Option<AskedTests<'m, 'a>>
    ensures none { IfNone result ((texts : List (List ℕ))
        → all_of (codes "FILE") (rows_of (found_of options.now)) ≡ Some texts → ⊥) }
    ensures asked { IfSome result (AreAsked (rows_of (found_of options.now))) }
{
    match options.get_strs(FILE) {
        Some(files) => Some(AskedTests {
            files,
            state: state_of(options),
            only: word_of(options, RUN),
            listed: is_given(options, LIST),
            junit: word_of(options, JUNIT),
            covered: is_given(options, COVERAGE),
            least: least_of(options),
        }),
        None => None,
    }
}
