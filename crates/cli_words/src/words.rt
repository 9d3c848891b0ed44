//! The command line.

use clap::{Arg, ArgAction, Command, value_parser};
use std::alloc::{AllocError, Global};
use std::env;
use std::io::ErrorKind;
use std::rt::Env;

/// A limit that can't be taken: what stands at its option isn't a number from 1 to the greatest.
#[derive(Clone, Copy, Debug, PartialEq, Eq)]
pub struct WrongLimit<'a> {
    /// The option.
    pub option: &'static str,
    /// What stands there.
    pub word: &'a str,
    /// The greatest number that it takes.
    pub greatest: usize,
}

/// Why the words of the command line can't be had.
#[derive(Clone, Copy, Debug, PartialEq, Eq)]
pub enum WordsFault {
    /// A word isn't UTF-8.
    NotText,
    /// Memory was wanting.
    Memory,
}

/// The words with which the program was called, its name first.
///
/// Its contract leaves open: all of it: what the words are, the system says.
pub fn given_words<R: Env + AllocGlobal>(rt: &R) -> Result<Vec<String>, WordsFault> {
    let given = match env::args(rt) {
        Ok(given) => given,
        Err(e) if e.kind() == ErrorKind::OutOfMemory => return Err(WordsFault::Memory),
        Err(_) => return Err(WordsFault::NotText),
    };
    let mut words = Vec::new(rt.alloc());
    for word in given {
        if words.push(word).is_err() {
            return Err(WordsFault::Memory);
        }
    }
    Ok(words)
}

/// What `review --version` says behind the program's name: the version, and the logic by which it is proved, as
/// `rt version` names it behind the kit.
const VERSION: &str = "1.1.0 (logic dac8208d650f15bf)";

/// The argument of `check`, and of `test`: what is read.
pub const FILE: &str = "FILE";

/// The option of `test` that names a file of the lines with which each test begins.
pub const STATE: &str = "state";

/// The option of `test` that names the tests that run.
pub const RUN: &str = "run";

/// The option of `test` that asks for a list of the tests.
pub const LIST: &str = "list";

/// The option of `test` that names the file to which what becomes of the tests is written as JUnit XML.
pub const JUNIT: &str = "junit";

/// The argument of `compare` that names the lines of a state.
pub const FIRST_STATE: &str = "STATE";

/// The argument of `compare` that names the changes.
pub const CHANGES: &str = "CHANGES";

/// The option of `compare` that asks for a table that a person reads.
pub const TEXT: &str = "text";

/// The option of `compare` that asks for Markdown.
pub const MARKDOWN: &str = "markdown";

/// The option of `compare` that says which differences fail.
pub const FAIL_ON: &str = "fail-on";

/// The words that it takes.
const FAILING: &[&str] = &["gain", "loss", "any"];

/// The option of `check` that names a file of declared attributes.
pub const ATTRIBUTES: &str = "attributes";

/// The option of `check` that names a file with the lines of a state.
pub const STORED: &str = "stored";

/// The option of `check` that names a file with lines that set values.
pub const LINES: &str = "lines";

/// The option of `check` by which a document is judged on behind its first fault.
pub const ALL: &str = "all";

/// The option of `check` by which a warning counts as a fault.
pub const STRICT: &str = "strict";

/// The option of `check` that names a file with the lines of a state, of whose table is told which rules it rests on;
/// and of `test` by which the same is told of the tests.
pub const COVERAGE: &str = "coverage";

/// The option of `test` that says how many of a hundred rules have to give a decision.
pub const COVERAGE_MIN: &str = "coverage-min";

/// The option of `check` by which that is told as JSON.
pub const JSON: &str = "json";

/// The option of `serve` that says how many modules hold values of attributes.
pub const ATTRIBUTE_MODULES: &str = "attribute-modules";

/// The option of `serve` that says how many modules hold policies.
pub const POLICY_MODULES: &str = "policy-modules";

/// The option that says how many people may be listed.
pub const PEOPLE: &str = "people";

/// The option that says how many actions may be listed.
pub const ACTIONS: &str = "actions";

/// The option that says how many resources may be listed.
pub const RESOURCES: &str = "resources";

/// The option that says how many cells the table may have.
pub const CELLS: &str = "cells";

/// The option that says how many documents may be stored.
pub const DOCUMENTS: &str = "documents";

/// An option that gives a number of modules, from 1 to 4.
fn number_of_modules<'a>(alloc: Global, option: &'static str, help: &'static str) -> Arg<'a> {
    Arg::new(alloc, option)
        .long(option)
        .value_name("N")
        .help(help)
        .value_parser(value_parser!(usize).range(1..=4))
        .default_value("2")
}

/// An option that gives a limit, with the one that holds where it isn't given.
fn limit<'a>(
    alloc: Global,
    option: &'static str,
    standard: &'static str,
    help: &'static str,
) -> Arg<'a> {
    Arg::new(alloc, option)
        .long(option)
        .value_name("N")
        .help(help)
        .allow_negative_numbers(true)
        .default_value(standard)
}

/// A subcommand that takes limits too.
fn with_limits<'a>(alloc: Global, command: Command<'a>) -> Result<Command<'a>, AllocError> {
    let people = limit(
        alloc,
        PEOPLE,
        "256",
        "How many people may be listed, up to 65536",
    );
    let actions = limit(
        alloc,
        ACTIONS,
        "32",
        "How many actions may be listed, up to 1024",
    );
    let resources = limit(
        alloc,
        RESOURCES,
        "256",
        "How many resources may be listed, up to 65536",
    );
    let cells = limit(
        alloc,
        CELLS,
        "65536",
        "How many cells the table may have, up to 16777216",
    );
    let documents = limit(
        alloc,
        DOCUMENTS,
        "1024",
        "How many policies and policy sets may be stored, up to 65536",
    );
    command
        .arg(people)?
        .arg(actions)?
        .arg(resources)?
        .arg(cells)?
        .arg(documents)
}

/// The subcommand `serve`.
fn serve<'a>(alloc: Global) -> Result<Command<'a>, AllocError> {
    let attribute_modules = number_of_modules(
        alloc,
        ATTRIBUTE_MODULES,
        "How many modules hold values of attributes, from 1 to 4",
    );
    let policy_modules = number_of_modules(
        alloc,
        POLICY_MODULES,
        "How many modules hold policies, from 1 to 4",
    );
    let serve = Command::new(alloc, "serve")
        .about("Serves commands on standard input, one line each, to standard output")
        .arg(attribute_modules)?
        .arg(policy_modules)?;
    with_limits(alloc, serve)
}

/// The subcommand `check`.
fn check<'a>(alloc: Global) -> Result<Command<'a>, AllocError> {
    let file = Arg::new(alloc, FILE)
        .help(
            "Policies and policy sets in JSON, each of at most 1048576 bytes; - is standard input",
        )
        .num_args(1..)
        .required_unless_present(COVERAGE)?;
    let coverage = Arg::new(alloc, COVERAGE)
        .long(COVERAGE)
        .value_name("STATE")
        .conflicts_with(FILE)?
        .help(
            "The lines of a dump: tell which rules of its policies give no decision in its table",
        );
    let json = Arg::new(alloc, JSON)
        .long(JSON)
        .requires_arg(COVERAGE)?
        .action(ArgAction::SetTrue)
        .help("Tell that as JSON");
    let attributes = Arg::new(alloc, ATTRIBUTES)
        .long(ATTRIBUTES)
        .value_name("DECLARED")
        .help("The attributes that the policies may ask for, and their values, in JSON");
    let stored = Arg::new(alloc, STORED)
        .long(STORED)
        .value_name("STATE")
        .help("The lines of a dump, with whose policies the references are looked up");
    let lines = Arg::new(alloc, LINES).long(LINES).value_name("LINES").help(
        "Lines that set values, to be compared with the attributes",
    );
    let all = Arg::new(alloc, ALL)
        .long(ALL)
        .help("Tell what is wrong behind the first fault of a policy too")
        .action(ArgAction::SetTrue);
    let strict = Arg::new(alloc, STRICT)
        .long(STRICT)
        .help("Count a warning as a fault")
        .action(ArgAction::SetTrue);
    let check = Command::new(alloc, "check")
        .about("Says whether the policies in files may be stored, or why not")
        .arg(attributes)?
        .arg(stored)?
        .arg(lines)?
        .arg(all)?
        .arg(strict)?
        .arg(coverage)?
        .arg(json)?
        .arg(file)?;
    with_limits(alloc, check)
}

/// The subcommand `lines`.
fn lines<'a>(alloc: Global) -> Command<'a> {
    Command::new(alloc, "lines").about(
        "Writes the lines of a dump on standard input to standard output",
    )
}

/// The subcommand `test`.
fn test<'a>(alloc: Global) -> Result<Command<'a>, AllocError> {
    let files = Arg::new(alloc, FILE)
        .help("Tests: lines with the replies that are expected; - is standard input")
        .num_args(1..)
        .required(true);
    let state = Arg::new(alloc, STATE).long(STATE).value_name("STATE").help(
        "Lines with which each test begins, as those of a dump; all have to be accepted",
    );
    let run = Arg::new(alloc, RUN)
        .long(RUN)
        .value_name("NAME")
        .help("Run the tests of that name alone");
    let list = Arg::new(alloc, LIST)
        .long(LIST)
        .action(ArgAction::SetTrue)
        .help("Say where each test begins and what it is called, and run none");
    let junit = Arg::new(alloc, JUNIT).long(JUNIT).value_name("OUT").help(
        "Write what became of the tests to this file, as JUnit XML",
    );
    let coverage = Arg::new(alloc, COVERAGE)
        .long(COVERAGE)
        .action(ArgAction::SetTrue)
        .help("Tell which rules of the policies give no decision that a test asks for");
    let least = Arg::new(alloc, COVERAGE_MIN)
        .long(COVERAGE_MIN)
        .value_name("N")
        .value_parser(value_parser!(usize).range(0..=100))
        .help("The same, and fail where less than N of a hundred rules give one");
    let test = Command::new(alloc, "test")
        .about("Runs the tests in files, and says which replies are not as expected")
        .arg(state)?
        .arg(run)?
        .arg(list)?
        .arg(junit)?
        .arg(coverage)?
        .arg(least)?
        .arg(files)?;
    with_limits(alloc, test)
}

/// The subcommand `compare`.
fn compare<'a>(alloc: Global) -> Result<Command<'a>, AllocError> {
    let state = Arg::new(alloc, FIRST_STATE)
        .help("The lines of a state, as those of a dump; - is standard input")
        .required(true);
    let changes = Arg::new(alloc, CHANGES)
        .help("Lines that change it, or those of a dump of another state; - is standard input")
        .required(true);
    let text = Arg::new(alloc, TEXT)
        .long(TEXT)
        .action(ArgAction::SetTrue)
        .help("Write a table for a person, and no JSON");
    let markdown = Arg::new(alloc, MARKDOWN)
        .long(MARKDOWN)
        .action(ArgAction::SetTrue)
        .conflicts_with(TEXT)?
        .help("Write Markdown of at most 50 lines: who gains Permit and who loses it, by rule");
    let failing = Arg::new(alloc, FAIL_ON)
        .long(FAIL_ON)
        .value_name("KIND")
        .value_parser(FAILING)
        .help(
            "End with 4 where a request gains Permit, loses it, or anything differs, and else with 0",
        );
    let compare = Command::new(alloc, "compare")
        .about("Says which requests have another decision or other reasons in another state")
        .arg(text)?
        .arg(markdown)?
        .arg(failing)?
        .arg(state)?
        .arg(changes)?;
    with_limits(alloc, compare)
}

/// What the program takes: the subcommands `serve`, `check`, `lines`, `test` and `compare`.
///
/// Its contract leaves open: all of it: which words are taken is tried in the trials, and read by `task_of` and by
/// `given_limits` of `cli_serve`.
pub fn command<'a>(alloc: Global) -> Result<Command<'a>, AllocError> {
    Command::new(alloc, "review")
        .about("Answers XACML requests, and keeps a review table of their answers")
        .version(VERSION)
        .subcommand_required(true)
        .subcommand(serve(alloc)?)?
        .subcommand(check(alloc)?)?
        .subcommand(lines(alloc))?
        .subcommand(test(alloc)?)?
        .subcommand(compare(alloc)?)
}
