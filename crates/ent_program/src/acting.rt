//! What the program does, over the runtime that it is started with.

ghost use Rattle.std.specs.Prelude.{◌≡◌, Result};
ghost use Rattle.clap.specs.Simple.{subcommand_rows_of};
ghost use Rattle.clap.specs.Values.{kind_of};
ghost use Rattle.cli_check.specs.Statuses.{checked_status};
ghost use Rattle.cli_check.specs.declared.found.FaultCount.{FaultCount};
ghost use Rattle.cli_words.specs.declared.status.Unmet.{Unmet};
ghost use Rattle.ent_program.specs.Ends.{Ends, EndsBy, told_status};

use clap::ArgMatches;
use clap::error::ErrorKind;
use cli_check::check_documents;
use cli_compare::{compare_states, cover_state};
use cli_serve::{given_limits, serve_input, write_lines};
use cli_test::run_tests;
use cli_words::{
    AskedCheck, REFUSED, Task, command, given_words, limit_status, status_of, task_of,
    usage_status, words_status,
};
use ent_command::command_words;
use ent_wire::ServeFault;
use std::rt::{Env, Files};

/// Says what the command line asks to be told, or why it can't be used, and gives whether that is lost, as where the
/// output is closed.
fn tell_usage(rt: &(impl Print + Eprint), error: &clap::Error) -> bool {
    error.kind() != ErrorKind::OutOfMemory && error.print(rt).is_err()
}

/// The exit status where the command line asks to be told something, which may be lost, or can't be used; a fault is
/// told on standard error.
fn told_status(rt: &impl Eprint, error: &clap::Error, is_lost: bool) -> u8
    ensures { result ≡ told_status is_lost (kind_of error.now) }
{
    match error.kind() {
        ErrorKind::DisplayHelp | ErrorKind::DisplayVersion if is_lost => {
            status_of(rt, ServeFault::Write)
        }
        ErrorKind::OutOfMemory => status_of(rt, ServeFault::Memory),
        _ => usage_status(error),
    }
}

/// Checks what is asked for, with the words of the commands that there are, and gives the exit status.
fn check_asked<R: Files + Input + Print + Eprint + AllocGlobal>(
    rt: &R,
    asked: AskedCheck<'_, '_>,
) -> u8
    ensures { (checked : Result FaultCount Unmet) × (result ≡ checked_status asked.entry.is_strict checked) }
{
    let Ok(commands) = command_words(rt.alloc()) else {
        return status_of(rt, ServeFault::Memory);
    };
    check_documents(rt, asked, commands.as_slice())
}

/// Does what the words of the command line ask for, and gives the exit status.
fn act<R: Files + Input + Print + Eprint + AllocGlobal>(
    rt: &R,
    matches: &ArgMatches<'_>,
    is_terminal: bool,
) -> u8
    ensures { EndsBy (subcommand_rows_of matches.now) result }
{
    let limits = match given_limits(matches) {
        Ok(limits) => limits,
        Err(wrong) => return limit_status(rt, wrong),
    };
    match task_of(matches) {
        Some(Task::Serve(modules)) => serve_input(rt, modules, limits, is_terminal),
        Some(Task::Check(asked)) => check_asked(rt, asked),
        Some(Task::Cover(asked)) => cover_state(rt, limits, asked),
        Some(Task::Lines) => write_lines(rt),
        Some(Task::Compare(states)) => compare_states(rt, limits, states),
        Some(Task::Test(tests)) => run_tests(rt, limits, tests),
        None => REFUSED,
    }
}

/// Runs the program with the words of its command line, where standard input is a terminal or not, and gives its exit
/// status: 0 where all went well, 1 where the command line can't be used, a file was refused, the input is no dump or a
/// test failed, 2 where a limit can't be taken or reading or writing failed, and 3 for want of memory.
///
/// Its contract leaves open: which end: any status from 0 to 4 would do, whatever the words ask for. Trials and stored
/// runs show which.
pub fn run<R: Env + Files + Input + Print + Eprint + AllocGlobal>(rt: &R, is_terminal: bool) -> u8
    ensures { Ends result }
{
    let words = match given_words(rt) {
        Ok(words) => words,
        Err(fault) => return words_status(rt, fault),
    };
    let Ok(command) = command(rt.alloc()) else {
        return status_of(rt, ServeFault::Memory);
    };
    match command.try_get_matches_from(words.as_slice()) {
        Ok(matches) => act(rt, &matches, is_terminal),
        Err(e) => {
            let is_lost = tell_usage(rt, &e);
            told_status(rt, &e, is_lost)
        }
    }
}
