//! The text of JUnit XML.

ghost use Rattle.std.specs.Prelude.{◌≡◌, ◌++◌, IfOk, OnOk};
ghost use Rattle.std.specs.List.{flat_map};
ghost use Rattle.script_junit.specs.Junit.{attribute, case_text, error_text, failure, junit_of};
ghost use Rattle.script_junit.specs.Junit.{number, suite_text};

use crate::escaping::escaped;
use crate::result::{Suite, TestCase, errors, failed};
use ent_values::Items;
use itoa::Buffer;
use std::alloc::{AllocError, Global};

/// Puts parts behind a text.
fn push_all(parts: &[&[u8]], text: &mut Vec<u8>) -> Result<(), AllocError>
    ensures { OnOk result (text.new.items ≡ text.old.items ++ flat_map (λ p. p.now) parts.now) }
{
    for part in parts {
        text.extend_from_slice(part)?;
    }
    Ok(())
}

/// Puts an attribute behind a text.
#[tactic(auto, unfolding(crate::specs::Junit::attribute))]
fn push_attribute(
    alloc: Global,
    word: &str,
    value: &[u8],
    text: &mut Vec<u8>,
) -> Result<(), AllocError>
    ensures { OnOk result (text.new.items ≡ text.old.items ++ attribute word.now value.now) }
{
    let value = escaped(alloc, value)?;
    push_all(&[word.as_bytes(), b"=\"", value.as_bytes(), b"\""], text)
}

/// Puts an attribute that is a number behind a text.
#[tactic(auto, unfolding(crate::specs::Junit::number))]
fn push_number(word: &str, value: u64, text: &mut Vec<u8>) -> Result<(), AllocError>
    ensures { OnOk result (text.new.items ≡ text.old.items ++ number word.now value) }
{
    let mut buffer = Buffer::new();
    let value = buffer.format(value).as_bytes();
    push_all(&[word.as_bytes(), b"=\"", value, b"\""], text)
}

/// Puts what a test has inside behind a text, and its end.
#[tactic(auto, unfolding(crate::specs::Junit::failure))]
fn push_failure(alloc: Global, case: &TestCase, text: &mut Vec<u8>) -> Result<(), AllocError>
    ensures { OnOk result (text.new.items ≡ text.old.items ++ failure case.now) }
{
    if case.passed {
        return text.extend_from_slice(b"/>\n");
    }
    let told = escaped(alloc, case.told.as_slice())?;
    push_all(
        &[
            b"><failure message=\"failed\">",
            told.as_bytes(),
            b"</failure></testcase>\n",
        ],
        text,
    )
}

/// Puts a test of a file behind a text.
#[tactic(auto, unfolding(crate::specs::Junit::case_text))]
fn push_case(
    alloc: Global,
    file: &str,
    case: &TestCase,
    text: &mut Vec<u8>,
) -> Result<(), AllocError>
    ensures { OnOk result (text.new.items ≡ text.old.items ++ case_text file.now case.now) }
{
    text.extend_from_slice(b"    <testcase")?;
    push_attribute(alloc, " classname", file.as_bytes(), text)?;
    push_attribute(alloc, " name", case.name.as_slice(), text)?;
    push_attribute(alloc, " file", file.as_bytes(), text)?;
    push_number(" line", case.number, text)?;
    push_failure(alloc, case, text)
}

/// Puts the tests of a file behind a text.
fn push_cases(
    alloc: Global,
    file: &str,
    cases: &[TestCase],
    text: &mut Vec<u8>,
) -> Result<(), AllocError>
    ensures { OnOk result (text.new.items ≡ text.old.items ++ flat_map (case_text file.now) cases.now) }
{
    for case in cases {
        push_case(alloc, file, case, text)?;
    }
    Ok(())
}

/// Puts what was told of a file behind a text, if anything was.
#[tactic(auto, unfolding(crate::specs::Junit::error_text))]
fn push_error(
    alloc: Global,
    file: &str,
    error: &Option<Items<u8>>,
    text: &mut Vec<u8>,
) -> Result<(), AllocError>
    ensures { OnOk result (text.new.items ≡ text.old.items ++ error_text file.now error.now) }
{
    let Some(told) = error else {
        return Ok(());
    };
    text.extend_from_slice(b"    <testcase")?;
    push_attribute(alloc, " classname", file.as_bytes(), text)?;
    text.extend_from_slice(b" name=\"file\"><error")?;
    push_attribute(alloc, " message", told.as_slice(), text)?;
    text.extend_from_slice(b"/></testcase>\n")
}

/// Puts the tests of a file behind a text.
#[tactic(auto, unfolding(crate::specs::Junit::suite_text))]
fn push_suite(alloc: Global, suite: &Suite<'_>, text: &mut Vec<u8>) -> Result<(), AllocError>
    ensures { OnOk result (text.new.items ≡ text.old.items ++ suite_text suite.now) }
{
    let cases = suite.cases.as_slice();
    let errors = errors(&suite.error);
    text.extend_from_slice(b"  <testsuite")?;
    push_attribute(alloc, " name", suite.name.as_bytes(), text)?;
    push_number(" tests", cases.len() as u64 + errors, text)?;
    push_number(" failures", failed(cases), text)?;
    push_number(" errors", errors, text)?;
    text.extend_from_slice(b">\n")?;
    push_error(alloc, suite.name, &suite.error, text)?;
    push_cases(alloc, suite.name, cases, text)?;
    text.extend_from_slice(b"  </testsuite>\n")?;
    Ok(())
}

/// Puts the tests of files behind a text.
fn push_suites(alloc: Global, suites: &[Suite<'_>], text: &mut Vec<u8>) -> Result<(), AllocError>
    ensures { OnOk result (text.new.items ≡ text.old.items ++ flat_map suite_text suites.now) }
{
    for suite in suites {
        push_suite(alloc, suite, text)?;
    }
    Ok(())
}

/// What became of the tests of files, as JUnit XML: a suite for each file, and in it a case for each test, with what
/// was told of it where it failed. What was told of a file whose tests couldn't run is an error of its suite.
///
/// # Errors
///
/// `AllocError` if memory runs out.
///
/// Its contract is an equation but for memory.
pub fn junit_of(alloc: Global, suites: &[Suite<'_>]) -> Result<Vec<u8>, AllocError>
    ensures { IfOk result (λ v. v.items ≡ junit_of suites.now) }
{
    let mut text = Vec::new(alloc);
    text.extend_from_slice(b"<?xml version=\"1.0\" encoding=\"UTF-8\"?>\n<testsuites>\n")?;
    push_suites(alloc, suites, &mut text)?;
    text.extend_from_slice(b"</testsuites>\n")?;
    Ok(text)
}
