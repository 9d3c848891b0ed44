//! Of which state the command line asks what its table covers.

ghost use Rattle.std.specs.Prelude.{◌≡◌, IfNone, IfSome, None, codes};
ghost use Rattle.clap.specs.Matches.{found_of};
ghost use Rattle.clap.specs.Walk.{first_of, rows_of};
ghost use Rattle.cli_words.specs.Options.{IsCoverageOf};

use crate::asked_tests::is_given;
use crate::sources::Source;
use crate::words::{COVERAGE, JSON};
use clap::ArgMatches;

/// The state of which is told which rules give no decision.
#[derive(Clone, Copy, Debug, PartialEq, Eq)]
pub struct AskedCoverage<'a> {
    /// The source of its lines.
    pub state: Source<'a>,
    /// Whether JSON is written.
    pub is_json: bool,
}

/// What the options of `check` ask for, if they ask for coverage.
pub(crate) fn asked_coverage<'a>(options: &ArgMatches<'a>) -> Option<AskedCoverage<'a>>
    ensures none { IfNone result (first_of (codes "coverage") (rows_of (found_of options.now)) ≡ None) }
    ensures asked { IfSome result (IsCoverageOf (rows_of (found_of options.now))) }
{
    match options.get_str(COVERAGE) {
        Some(word) => Some(AskedCoverage {
            state: Source::named(word),
            is_json: is_given(options, JSON),
        }),
        None => None,
    }
}
