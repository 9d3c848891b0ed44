//! What is to be checked, as the command line asks for it.

ghost use Rattle.std.specs.Prelude.{◌≡◌, IfNone, IfSome, List, Some, codes, option_map, ℕ};
ghost use Rattle.clap.specs.Matches.{found_of};
ghost use Rattle.clap.specs.Walk.{all_of, first_of, rows_of};
ghost use Rattle.cli_words.specs.Options.{IsCheckOf};
ghost use Rattle.cli_words.specs.Sources.{path_named, path_of};

use crate::asked_tests::is_given;
use crate::sources::Source;
use crate::words::{ALL, ATTRIBUTES, FILE, LINES, STORED, STRICT};
use clap::ArgMatches;

/// What is to be checked, and by what.
#[derive(Clone, Copy, Debug, PartialEq, Eq)]
pub struct AskedCheck<'m, 'a> {
    /// The words that name the files of the documents.
    pub files: &'m [&'a str],
    /// The source of the attributes that are declared, if there is one.
    pub attributes: Option<Source<'a>>,
    /// The source of the lines of a state, if there is one.
    pub stored: Option<Source<'a>>,
    /// The source of lines that set values, if there is one.
    pub lines: Option<Source<'a>>,
    /// Whether a document is judged on behind its first fault.
    pub is_all: bool,
    /// Whether a warning counts as a fault.
    pub is_strict: bool,
}

/// The source that an option of `check` names, if it is given.
fn source_of<'a>(options: &ArgMatches<'a>, option: &str) -> Option<Source<'a>>
    ensures { option_map path_of result ≡ option_map path_named (first_of option.now (rows_of (found_of options.now))) }
{
    match options.get_str(option) {
        Some(word) => Some(Source::named(word)),
        None => None,
    }
}

/// What the options of `check` ask for; none where no file is named.
pub(crate) fn asked_check<'m, 'a: 'm>(options: &'m ArgMatches<'a>) -> Option<AskedCheck<'m, 'a>>
    ensures none { IfNone result ((texts : List (List ℕ))
        → all_of (codes "FILE") (rows_of (found_of options.now)) ≡ Some texts → ⊥) }
    ensures asked { IfSome result (IsCheckOf (rows_of (found_of options.now))) }
{
    match options.get_strs(FILE) {
        Some(files) => Some(AskedCheck {
            files,
            attributes: source_of(options, ATTRIBUTES),
            stored: source_of(options, STORED),
            lines: source_of(options, LINES),
            is_all: is_given(options, ALL),
            is_strict: is_given(options, STRICT),
        }),
        None => None,
    }
}
