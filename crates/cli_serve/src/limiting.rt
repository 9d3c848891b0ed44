//! The limits that the command line gives.

ghost use Rattle.std.specs.Prelude.{◌≡◌, ◌≤◌, IfErr, IfNone, IfOk, IfSome};
ghost use Rattle.clap.specs.Matches.{found_of};
ghost use Rattle.clap.specs.Simple.{subcommand_rows_of};
ghost use Rattle.clap.specs.Walk.{first_of, rows_of};
ghost use Rattle.cli_serve.specs.Limiting.{AreLimits, AreLimitsOf, IsLimit, IsWrong, IsWrongOf, WritesLimit};
ghost use Rattle.cli_serve.specs.Limiting.{WritesNone, bounded};
ghost use Rattle.ent_table.specs.Limits.{IsWithinGreatest};

use clap::ArgMatches;
use cli_words::{ACTIONS, CELLS, DOCUMENTS, PEOPLE, RESOURCES, WrongLimit};
use ent_table::Limits;

/// The limit that a word writes: a number from 1 to the greatest.
fn limit_in(word: &str, greatest: usize) -> Option<usize>
    ensures some { IfSome result (WritesLimit greatest word.now) }
    ensures none { IfNone result (WritesNone greatest word.now) }
{
    match word.parse::<usize>() {
        Ok(limit) if 1 <= limit && limit <= greatest => Some(limit),
        _ => None,
    }
}

/// The limit that an option gives, or the standard one where it isn't given.
fn limit_of<'a>(
    options: &ArgMatches<'a>,
    option: &'static str,
    standard: usize,
    greatest: usize,
) -> Result<usize, WrongLimit<'a>>
    requires { standard ≤ greatest }
    ensures limit { IfOk result (IsLimit standard greatest (first_of option.now (rows_of (found_of options.now)))) }
    ensures within { IfOk result (λ limit. limit ≤ greatest) }
    ensures wrong { IfErr result (IsWrong (rows_of (found_of options.now))) }
{
    let Some(word) = options.get_str(option) else {
        return Ok(standard);
    };
    match limit_in(word, greatest) {
        Some(limit) => Ok(limit),
        None => Err(WrongLimit {
            option,
            word,
            greatest,
        }),
    }
}

/// The limits that the options of a subcommand give.
fn limits_of<'a>(options: &ArgMatches<'a>) -> Result<Limits, WrongLimit<'a>>
    ensures limits { IfOk result (AreLimits (rows_of (found_of options.now))) }
    ensures within { IfOk result IsWithinGreatest }
    ensures wrong { IfErr result (IsWrong (rows_of (found_of options.now))) }
{
    Ok(Limits {
        people: limit_of(options, PEOPLE, 256, MOST_NAMES)?,
        actions: limit_of(options, ACTIONS, 32, MOST_ACTIONS)?,
        resources: limit_of(options, RESOURCES, 256, MOST_NAMES)?,
        cells: limit_of(options, CELLS, 65_536, MOST_CELLS)?,
        documents: limit_of(options, DOCUMENTS, 1_024, MOST_DOCUMENTS)?,
    })
}

/// The limits that words of the command line give which it takes: those that hold where none are given, except where
/// an option of the subcommand gives another.
///
/// Its contract leaves open: which option is told, where several write no limit.
pub fn given_limits<'a>(matches: &ArgMatches<'a>) -> Result<Limits, WrongLimit<'a>>
    ensures limits { IfOk result (AreLimitsOf (subcommand_rows_of matches.now)) }
    ensures within { IfOk result IsWithinGreatest }
    ensures wrong { IfErr result (IsWrongOf (subcommand_rows_of matches.now)) }
{
    match matches.subcommand() {
        Some((_, options)) => limits_of(options),
        None => Ok(Limits::standard()),
    }
}

/// Those limits, each at most the greatest that a review takes.
pub(crate) fn bounded(limits: Limits) -> Limits
    ensures value { result ≡ bounded limits }
    ensures within { IsWithinGreatest result }
{
    Limits {
        people: limits.people.min(MOST_NAMES),
        actions: limits.actions.min(MOST_ACTIONS),
        resources: limits.resources.min(MOST_NAMES),
        cells: limits.cells.min(MOST_CELLS),
        documents: limits.documents.min(MOST_DOCUMENTS),
    }
}

/// The most people, or resources, that the command line takes as a limit.
pub const MOST_NAMES: usize = 65_536;

/// The most actions.
pub const MOST_ACTIONS: usize = 1_024;

/// The most cells.
pub const MOST_CELLS: usize = 16_777_216;

/// The most documents.
pub const MOST_DOCUMENTS: usize = 65_536;
