//! What became of tests.

ghost use Rattle.std.specs.Prelude.{◌≡◌, ◌≤◌, length};
ghost use Rattle.script_junit.specs.Junit.{errors, failed};

use ent_values::Items;

/// What became of a test.
#[derive(Debug, Drop)]
pub struct TestCase {
    /// What it is called.
    pub name: Items<u8>,
    /// The number of the line of its file that calls it so, counted from 1.
    pub number: u64,
    /// Whether it passed.
    pub passed: bool,
    /// What was told of it.
    pub told: Items<u8>,
}

/// What became of the tests of a file.
#[derive(Debug, Drop)]
pub struct Suite<'a> {
    /// What the file is called.
    pub name: &'a str,
    /// Its tests that ran, in order.
    pub cases: Items<TestCase>,
    /// What was told of the file, where its tests couldn't run.
    pub error: Option<Items<u8>>,
}

/// How many errors a suite has, by what was told of its file: one where anything was.
///
/// Its contract is an equation.
pub fn errors(error: &Option<Items<u8>>) -> u64
    ensures value { result ≡ errors error.now }
    ensures most { result ≤ 1 }
{
    match error {
        Some(_) => 1,
        None => 0,
    }
}

/// How many of these tests failed.
///
/// Its contract is an equation.
#[tactic(auto, using(crate::proofs::Lists::counted_more, crate::proofs::Lists::counted_same))]
pub fn failed(cases: &[TestCase]) -> u64
    ensures value { result ≡ failed cases.now }
    ensures most { result ≤ length cases.now }
{
    let mut count = 0;
    for case in cases {
        if !case.passed {
            count += 1;
        }
    }
    count
}
