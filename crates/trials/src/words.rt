//! What the command line takes and asks for, what is said of words that it does not take, and the statuses.

use crate::help::SAID;
use clap::ArgMatches;
use cli_check::{FileFault, file_sentence};
use cli_serve::{given_limits, lines_status};
use cli_words::{WordsFault, command, given_words, status_of, task_of, usage_status, words_status};
use ent_line::{LinesFault, ServeFault};
use ent_policy::DocFault;
use std::alloc::{AllocError, Global};
use std::cell::RefCell;
use std::env::FillError;
use std::fmt::Display;
use std::io;
use std::rt::Env;
use std::test::Fail;

/// Puts a word behind the others.
fn push_word(alloc: Global, all: &mut Vec<String>, word: &str) -> Result<(), AllocError> {
    let word = String::from_str(alloc, word)?;
    Ok(all.push(word)?)
}

/// The words of a command line, with the program's name in front.
fn line_of(alloc: Global, words: &[&str]) -> Result<Vec<String>, AllocError> {
    let mut all = Vec::new(alloc);
    push_word(alloc, &mut all, "review")?;
    for word in words {
        push_word(alloc, &mut all, word)?;
    }
    Ok(all)
}

/// What is said of the words, and the exit status.
fn told(alloc: Global, error: &clap::Error) -> Result<(String, u8), AllocError> {
    Ok((error.to_string(alloc)?, usage_status(error)))
}

/// What is said of these words, behind the program's name, and the exit status for it, unless the program takes them.
fn said(alloc: Global, words: &[&str]) -> Result<Option<(String, u8)>, Fail> {
    let all = line_of(alloc, words)?;
    match command(alloc)?.try_get_matches_from(all.as_slice()) {
        Ok(_) => Ok(None),
        Err(error) => Ok(Some(told(alloc, &error)?)),
    }
}

/// Whether that text is said of these words, with that status.
fn is_said(alloc: Global, words: &[&str], text: &str, status: u8) -> Result<bool, Fail> {
    match said(alloc, words)? {
        Some((given, its_status)) => Ok(given.as_str() == text && its_status == status),
        None => Ok(false),
    }
}

#[test]
fn words_that_are_not_taken(rt: HostRuntime) -> Result<(), Fail> {
    for &(words, text, status) in SAID {
        assert!(rt; is_said(rt.alloc(), words, text, status)?, "{text}");
    }
    Ok(())
}

/// Words that the program takes, with what they ask for.
const TAKEN: &[(&[&str], &str)] = &[
    (&["serve"], "Serve(Modules { attributes: 2, policies: 2 })"),
    (
        &["serve", "--attribute-modules", "1"],
        "Serve(Modules { attributes: 1, policies: 2 })",
    ),
    (
        &["serve", "--policy-modules=4", "--attribute-modules", "3"],
        "Serve(Modules { attributes: 3, policies: 4 })",
    ),
    (
        &["check", "serve"],
        "Check(AskedCheck { files: [\"serve\"], attributes: None, \
         stored: None, lines: None, is_all: false, is_strict: false })",
    ),
    (
        &["check", "-"],
        "Check(AskedCheck { files: [\"-\"], attributes: None, \
         stored: None, lines: None, is_all: false, is_strict: false })",
    ),
    (
        &["check", "--", "-"],
        "Check(AskedCheck { files: [\"-\"], attributes: None, \
         stored: None, lines: None, is_all: false, is_strict: false })",
    ),
    (
        &["check", "--attributes", "-", "a"],
        "Check(AskedCheck { files: [\"a\"], attributes: Some(Input), \
         stored: None, lines: None, is_all: false, is_strict: false })",
    ),
    (
        &["check", "a", "-"],
        "Check(AskedCheck { files: [\"a\", \"-\"], attributes: None, \
         stored: None, lines: None, is_all: false, is_strict: false })",
    ),
    (
        &["check", "--stored", "s", "a"],
        "Check(AskedCheck { files: [\"a\"], attributes: None, \
         stored: Some(File(\"s\")), lines: None, is_all: false, is_strict: false })",
    ),
    (
        &["check", "--attributes", "d", "--stored", "-", "a", "b"],
        "Check(AskedCheck { files: [\"a\", \"b\"], attributes: Some(File(\"d\")), \
         stored: Some(Input), lines: None, is_all: false, is_strict: false })",
    ),
    (
        &["check", "--lines", "l", "--strict", "--all", "a"],
        "Check(AskedCheck { files: [\"a\"], attributes: None, \
         stored: None, lines: Some(File(\"l\")), is_all: true, is_strict: true })",
    ),
    (&["lines"], "Lines"),
    (
        &["test", "a", "-", "b"],
        "Test(AskedTests { files: [\"a\", \"-\", \"b\"], state: None, only: None, listed: false, junit: None, covered: false, least: None })",
    ),
    (
        &["test", "--state", "s", "--run", "n", "a"],
        "Test(AskedTests { files: [\"a\"], state: Some(File(\"s\")), only: Some(\"n\"), listed: false, junit: None, covered: false, least: None })",
    ),
    (
        &["test", "--junit", "x", "a"],
        "Test(AskedTests { files: [\"a\"], state: None, only: None, listed: false, junit: Some(\"x\"), covered: false, least: None })",
    ),
    (
        &["test", "--list", "a"],
        "Test(AskedTests { files: [\"a\"], state: None, only: None, listed: true, junit: None, covered: false, least: None })",
    ),
    (
        &["compare", "a", "-"],
        "Compare(AskedStates { state: File(\"a\"), changes: Input, form: Json, failing: None })",
    ),
    (
        &["compare", "--text", "-", "b"],
        "Compare(AskedStates { state: Input, changes: File(\"b\"), form: Table, failing: None })",
    ),
    (
        &["compare", "--markdown", "--fail-on", "loss", "a", "b"],
        "Compare(AskedStates { state: File(\"a\"), changes: File(\"b\"), form: Markdown, failing: Some(Loss) })",
    ),
];

/// Whether what was found asks for that.
fn is_task(alloc: Global, matches: &ArgMatches<'_>, want: &str) -> Result<bool, AllocError> {
    match task_of(matches) {
        Some(task) => Ok(format!(in alloc; "{task:?}")?.as_str() == want),
        None => Ok(false),
    }
}

/// Whether the words ask for that.
fn is_asked(alloc: Global, words: &[&str], want: &str) -> Result<bool, Fail> {
    let all = line_of(alloc, words)?;
    let matches = command(alloc)?.try_get_matches_from(all.as_slice())?;
    Ok(is_task(alloc, &matches, want)?)
}

#[test]
fn words_that_are_taken(rt: HostRuntime) -> Result<(), Fail> {
    for &(words, want) in TAKEN {
        assert!(rt; is_asked(rt.alloc(), words, want)?, "{want}");
    }
    Ok(())
}

/// Words that the program takes, with the limits that they give or what is wrong with them.
const LIMITED: &[(&[&str], &str)] = &[
    (
        &["serve"],
        "Ok(Limits { people: 256, actions: 32, resources: 256, cells: 65536, documents: 1024 })",
    ),
    (
        &["lines"],
        "Ok(Limits { people: 256, actions: 32, resources: 256, cells: 65536, documents: 1024 })",
    ),
    (
        &[
            "serve",
            "--people",
            "65536",
            "--actions",
            "1024",
            "--resources",
            "65536",
            "--cells",
            "16777216",
            "--documents",
            "65536",
        ],
        "Ok(Limits { people: 65536, actions: 1024, resources: 65536, cells: 16777216, documents: 65536 })",
    ),
    (
        &["test", "--people", "1", "--cells=0007", "a"],
        "Ok(Limits { people: 1, actions: 32, resources: 256, cells: 7, documents: 1024 })",
    ),
    (
        &["serve", "--people", "65537"],
        "Err(WrongLimit { option: \"people\", word: \"65537\", greatest: 65536 })",
    ),
    (
        &["compare", "--actions", "1025", "a", "b"],
        "Err(WrongLimit { option: \"actions\", word: \"1025\", greatest: 1024 })",
    ),
    (
        &["check", "--resources", "0", "--coverage", "a"],
        "Err(WrongLimit { option: \"resources\", word: \"0\", greatest: 65536 })",
    ),
    (
        &["serve", "--cells", "many"],
        "Err(WrongLimit { option: \"cells\", word: \"many\", greatest: 16777216 })",
    ),
    (
        &["serve", "--documents", "-1"],
        "Err(WrongLimit { option: \"documents\", word: \"-1\", greatest: 65536 })",
    ),
];

/// Whether the words give those limits, or that is wrong with them.
fn is_limited(alloc: Global, words: &[&str], want: &str) -> Result<bool, Fail> {
    let all = line_of(alloc, words)?;
    let matches = command(alloc)?.try_get_matches_from(all.as_slice())?;
    let given = given_limits(&matches);
    Ok(format!(in alloc; "{given:?}")?.as_str() == want)
}

#[test]
fn words_that_give_limits(rt: HostRuntime) -> Result<(), Fail> {
    for &(words, want) in LIMITED {
        assert!(rt; is_limited(rt.alloc(), words, want)?, "{want}");
    }
    Ok(())
}

/// A program that is called by one word of one byte.
#[derive(Drop)]
struct Called {
    alloc: Global,
    byte: u8,
}

impl Alloc for Called {
    type A = Global;

    fn alloc(&self) -> Global {
        self.alloc
    }
}

impl Env for Called {
    fn arg(&self, i: usize, buf: &mut [u8]) -> Result<usize, FillError> {
        if i > 0 {
            return Err(FillError::NotPresent);
        }
        if buf.is_empty() {
            return Err(FillError::TooLong);
        }
        buf[0] = self.byte;
        Ok(1)
    }

    fn var(&self, _name: &str, _buf: &mut [u8]) -> Result<usize, FillError> {
        Err(FillError::NotPresent)
    }

    fn var_at(&self, _i: usize, _buf: &mut [u8]) -> Result<usize, FillError> {
        Err(FillError::NotPresent)
    }
}

#[test]
fn a_word_that_is_not_text(rt: HostRuntime) {
    let alloc = rt.alloc();
    assert_eq!(rt;
        given_words(&Called { alloc, byte: b'a' }).map(|words| words.len()),
        Ok(1)
    );
    assert_eq!(rt;
        given_words(&Called { alloc, byte: 0xFF }).map(|words| words.len()),
        Err(WordsFault::NotText)
    );
}

/// A standard error that keeps the last line.
#[derive(Drop)]
struct Ear {
    alloc: Global,
    line: RefCell<String>,
}

impl Ear {
    fn new(alloc: Global) -> Ear {
        Ear {
            alloc,
            line: RefCell::new(String::new(alloc)),
        }
    }

    /// Whether that is the last line.
    fn heard(&self, line: &str) -> bool {
        match self.line.try_borrow() {
            Ok(last) => last.as_str() == line,
            Err(_) => false,
        }
    }
}

impl Eprint for Ear {
    fn eprint<D: Display + Drop>(&self, value: D) -> io::Result<()> {
        self.eprintln(value)
    }

    fn eprintln<D: Display + Drop>(&self, value: D) -> io::Result<()> {
        let line = format!(in self.alloc; "{value}")?;
        let _ = self.line.try_replace(line);
        Ok(())
    }
}

/// What is said of a fault that ends the program, and the status.
const ENDS: &[(ServeFault, &str, u8)] = &[
    (ServeFault::Read, "review: read fault", 2),
    (ServeFault::Write, "review: write fault", 2),
    (ServeFault::Memory, "review: out of memory", 3),
];

#[test]
fn each_fault_is_told(rt: HostRuntime) {
    let ear = Ear::new(rt.alloc());
    for &(fault, line, status) in ENDS {
        let given = status_of(&ear, fault);
        assert!(rt; given == status && ear.heard(line), "{line}");
    }
    let status = words_status(&ear, WordsFault::NotText);
    assert!(rt; status == 1 && ear.heard("review: a word of the command line isn't UTF-8"));
}

/// What is said where the lines of a dump weren't written, or not all, and the status.
const LINES_ENDS: &[(LinesFault, &str, u8)] = &[
    (LinesFault::NotDump, "review: not a dump", 1),
    (LinesFault::Read, "review: read fault", 2),
    (LinesFault::Write, "review: write fault", 2),
    (LinesFault::Memory, "review: out of memory", 3),
];

#[test]
fn each_fault_of_lines_is_told(rt: HostRuntime) {
    let ear = Ear::new(rt.alloc());
    for &(fault, line, status) in LINES_ENDS {
        let given = lines_status(&ear, Err(fault));
        assert!(rt; given == status && ear.heard(line), "{line}");
    }
}

/// Each fault of a document.
const FAULTS: &[DocFault] = &[
    DocFault::Form,
    DocFault::Identifier,
    DocFault::Version,
    DocFault::Algorithm,
    DocFault::Function,
    DocFault::Variable,
    DocFault::Size,
    DocFault::Depth,
    DocFault::Type,
];

/// Whether the same is said of a file as by the fault itself.
fn says_as_much(alloc: Global, fault: DocFault) -> Result<bool, Fail> {
    let line = format!(in alloc; "review: {fault}")?;
    Ok(file_sentence(FileFault::Document(fault)) == line.as_str())
}

#[test]
fn documents_are_told_by_their_faults(rt: HostRuntime) -> Result<(), Fail> {
    for &fault in FAULTS {
        assert!(rt; says_as_much(rt.alloc(), fault)?, "{fault}");
    }
    Ok(())
}
