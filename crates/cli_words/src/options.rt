//! What the command line asks for.

ghost use Rattle.std.specs.Prelude.{◌≡◌};
ghost use Rattle.clap.specs.Matches.{found_of, one_text};
ghost use Rattle.clap.specs.Simple.{subcommand_rows_of};
ghost use Rattle.clap.specs.Walk.{rows_of};
ghost use Rattle.cli_words.specs.Options.{AreFew, AreModules, HasFew, IsCheckTask, IsTaskOf, IsWritten, IsFew};

use crate::asked_check::{AskedCheck, asked_check};
use crate::asked_coverage::{AskedCoverage, asked_coverage};
use crate::asked_states::{AskedStates, asked_states};
use crate::asked_tests::{AskedTests, asked_tests};
use crate::words::{ATTRIBUTE_MODULES, POLICY_MODULES};
use clap::ArgMatches;

/// How many modules hold what a service answers by.
#[derive(Clone, Copy, Debug, PartialEq, Eq)]
pub struct Modules {
    /// How many hold values of attributes.
    pub attributes: usize,
    /// How many hold policies.
    pub policies: usize,
}

/// What the command line asks for.
#[derive(Clone, Copy, Debug, PartialEq, Eq)]
pub enum Task<'m, 'a> {
    /// To serve standard input by a service over that many modules.
    Serve(Modules),
    /// To check documents.
    Check(AskedCheck<'m, 'a>),
    /// To tell which rules of a state give no decision.
    Cover(AskedCoverage<'a>),
    /// To write the lines of the dump on standard input.
    Lines,
    /// To compare the tables of states.
    Compare(AskedStates<'a>),
    /// To run tests.
    Test(AskedTests<'m, 'a>),
}

/// The number of modules that an option of `serve` gives. What the command line takes is from 1 to 4.
fn number_of(options: &ArgMatches<'_>, option: &str) -> usize
    ensures few { IsFew result }
    ensures written { IsWritten (one_text (found_of options.now) option.now) result }
{
    options.get_one::<usize>(option).unwrap_or(1).clamp(1, 4)
}

/// How many modules the options of `serve` ask for.
fn modules_of(options: &ArgMatches<'_>) -> Modules
    ensures few { AreFew result }
    ensures written { AreModules (rows_of (found_of options.now)) result }
{
    Modules {
        attributes: number_of(options, ATTRIBUTE_MODULES),
        policies: number_of(options, POLICY_MODULES),
    }
}

/// What the options of `check` ask for; none where no file is named, and no state.
fn check_task<'m, 'a: 'm>(options: &'m ArgMatches<'a>) -> Option<Task<'m, 'a>>
    ensures few { HasFew result }
    ensures task { IsCheckTask (rows_of (found_of options.now)) result }
{
    match asked_coverage(options) {
        Some(coverage) => Some(Task::Cover(coverage)),
        None => Some(Task::Check(asked_check(options)?)),
    }
}

/// What is asked for by words that the command line takes: which subcommand, with how many modules or on which files.
///
/// Its contract leaves open: what stands in a task beside what its words are read as: places in the command line's own
/// values.
pub fn task_of<'m, 'a: 'm>(matches: &'m ArgMatches<'a>) -> Option<Task<'m, 'a>>
    ensures few { HasFew result }
    ensures task { IsTaskOf (subcommand_rows_of matches.now) result }
{
    let (name, options) = matches.subcommand()?;
    match name {
        "serve" => Some(Task::Serve(modules_of(options))),
        "check" => check_task(options),
        "lines" => Some(Task::Lines),
        "compare" => Some(Task::Compare(asked_states(options))),
        "test" => Some(Task::Test(asked_tests(options)?)),
        _ => None,
    }
}
