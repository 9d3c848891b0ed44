//! The tests that the command line asks for, over the runtime that the program is started with.

ghost use Rattle.std.specs.Prelude.{◌≡◌, Bool, IfOk};
ghost use Rattle.cli_test.specs.Ends.{IsOfTests};
ghost use Rattle.cli_test.specs.Statuses.{covered_status, last_status};

use crate::covering::{Covered, Share};
use crate::junit::{broken_off, write_junit};
use crate::listing::list_tests;
use crate::status::test_status;
use crate::tally::{Tally, send_tally};
use crate::testing::{TestPlan, test_from};
use cli_replies::read_state;
use cli_words::{
    AskedTests, REFUSED, Source, fault_status, pass_tests, read_source, status_of, tell,
    unmet_status,
};
use ent_table::Limits;
use ent_wire::{ServeFault, send_all};
use script_junit::Suite;
use std::alloc::{AllocError, Global};
use std::io;
use std::io::{BufWriter, Write};
use std::rt::Files;

/// How tests of files ended: how many passed and failed, and the last fault, which was told, if there was one.
#[derive(Clone, Copy)]
struct Ended {
    tally: Tally,
    fault: Option<ServeFault>,
}

impl Ended {
    /// These and the tests of one more file, or its fault, with which it counts as a test that failed.
    fn with(self, tested: Result<Tally, ServeFault>) -> Ended {
        match tested {
            Ok(tally) => Ended {
                tally: self.tally.and(tally),
                fault: self.fault,
            },
            Err(fault) => Ended {
                tally: self.tally.and(Tally::one_failed()),
                fault: Some(fault),
            },
        }
    }

    /// The exit status: that of the last fault, or else that of the tests.
    fn status(self, tested: u8) -> u8
        ensures { result ≡ last_status self.fault tested }
    {
        match self.fault {
            Some(fault) => fault_status(fault),
            None => tested,
        }
    }
}

/// What became of the tests of files, and which rules gave decisions in them, if that is wanted.
#[derive(Drop)]
struct Gathered<'a> {
    suites: Vec<Suite<'a>>,
    covered: Option<Covered>,
}

impl Gathered<'_> {
    /// Nothing yet of what is asked for.
    fn new<'a>(alloc: Global, tests: AskedTests<'_, '_>) -> Gathered<'a> {
        let covered = if tests.covered || tests.least.is_some() {
            Some(Covered::new(alloc))
        } else {
            None
        };
        Gathered {
            suites: Vec::new(alloc),
            covered,
        }
    }

    /// How many of the rules gave a decision, if that is wanted.
    fn share(&self, alloc: Global) -> Result<Option<Share>, AllocError> {
        match &self.covered {
            Some(covered) => Ok(Some(covered.share(alloc)?)),
            None => Ok(None),
        }
    }
}

/// The exit status of tests that would end with another: where all passed, 1 if fewer of a hundred rules gave a
/// decision than have to, which is told on standard error.
fn covered_status(rt: &impl Eprint, least: Option<usize>, share: &Option<Share>, status: u8) -> u8
    ensures { (is_short : Bool) × (result ≡ covered_status is_short status) }
{
    let (Some(least), Some(share)) = (least, share) else {
        return status;
    };
    if status != 0 || share.seen.saturating_mul(100) >= share.rules.saturating_mul(least) {
        return status;
    }
    let (seen, rules) = (share.seen, share.rules);
    let _ = eprintln!(rt;
        "review: {seen} of {rules} rules gave a decision, and {least} of 100 have to"
    );
    REFUSED
}

/// Runs the tests of a source, and writes what isn't as it is to be. Gives what became of them; a fault is told on
/// standard error.
fn run_source<'a, R: Files + Input + Eprint + AllocGlobal, W: Write>(
    rt: &R,
    plan: TestPlan<'_>,
    source: Source<'a>,
    writer: &mut W,
    covered: &mut Option<Covered>,
) -> Result<Suite<'a>, ServeFault> {
    let alloc = rt.alloc();
    let bytes = read_source(rt, source, u64::MAX)?;
    let tested = test_from(alloc, plan, source.name(), &mut bytes.as_slice(), writer);
    let suite = match tested {
        Ok(suite) => suite,
        Err(fault) => return Err(tell(rt, fault)),
    };
    if let Some(covered) = covered {
        if let Err(fault) = covered.add_file(alloc, plan, bytes.as_slice()) {
            return Err(tell(rt, fault));
        }
    }
    Ok(suite)
}

/// Runs the tests of a source, writes what isn't as it is to be, and puts what became of them last. Gives how many
/// passed; a fault is told on standard error.
fn test_source<'a, R: Files + Input + Eprint + AllocGlobal, W: Write>(
    rt: &R,
    plan: TestPlan<'_>,
    source: Source<'a>,
    writer: &mut W,
    gathered: &mut Gathered<'a>,
) -> Result<Tally, ServeFault> {
    let (suite, tested) = match run_source(rt, plan, source, writer, &mut gathered.covered) {
        Ok(suite) => {
            let tally = Tally::of(&suite);
            (suite, Ok(tally))
        }
        Err(fault) => match broken_off(rt.alloc(), source.name()) {
            Ok(suite) => (suite, Err(fault)),
            Err(_) => return Err(tell(rt, ServeFault::Memory)),
        },
    };
    match gathered.suites.push(suite) {
        Ok(()) => tested,
        Err(_) => Err(tell(rt, ServeFault::Memory)),
    }
}

/// Lists the tests of a source that would run. Gives how many there are; a fault is told on standard error.
fn list_source<R: Files + Input + Eprint + AllocGlobal, W: Write>(
    rt: &R,
    plan: TestPlan<'_>,
    source: Source<'_>,
    writer: &mut W,
) -> Result<Tally, ServeFault> {
    let bytes = read_source(rt, source, u64::MAX)?;
    match list_tests(rt.alloc(), plan, source.name(), bytes.as_slice(), writer) {
        Ok(tally) => Ok(tally),
        Err(fault) => Err(tell(rt, fault)),
    }
}

/// Lists the tests of each source that the words name, in turn; one that can't be read doesn't keep the others from it.
fn list_each<R: Files + Input + Eprint + AllocGlobal, W: Write>(
    rt: &R,
    plan: TestPlan<'_>,
    words: &[&str],
    writer: &mut W,
) -> Ended {
    let mut ended = Ended {
        tally: Tally::none(),
        fault: None,
    };
    for &word in words {
        ended = ended.with(list_source(rt, plan, Source::named(word), writer));
    }
    ended
}

/// Writes to standard output where each test of the files begins that would run, and what it is called, and gives the
/// exit status.
fn list_by<R: Files + Input + Print + Eprint + AllocGlobal>(
    rt: &R,
    plan: TestPlan<'_>,
    words: &[&str],
) -> u8
    ensures { IsOfTests result }
{
    let Ok(mut writer) = BufWriter::new(rt.alloc(), io::writer(rt)) else {
        return status_of(rt, ServeFault::Memory);
    };
    let ended = list_each(rt, plan, words, &mut writer);
    let flushed = match writer.flush() {
        Ok(()) => Ok(ended.tally),
        Err(_) => Err(ServeFault::Write),
    };
    ended.status(test_status(rt, flushed))
}

/// Runs the tests of each source that the words name, in turn, and puts what became of them last; one that can't be
/// read doesn't keep the others from it.
fn test_each<'a, R: Files + Input + Eprint + AllocGlobal, W: Write>(
    rt: &R,
    plan: TestPlan<'_>,
    words: &[&'a str],
    writer: &mut W,
    gathered: &mut Gathered<'a>,
) -> Ended {
    let mut ended = Ended {
        tally: Tally::none(),
        fault: None,
    };
    for &word in words {
        let tested = test_source(rt, plan, Source::named(word), writer, gathered);
        ended = ended.with(tested);
    }
    ended
}

/// Writes which rules gave no decision, if that is wanted, and how many tests passed, and flushes the writer.
fn write_end<W: Write>(
    writer: &mut W,
    share: &Option<Share>,
    tally: Tally,
) -> Result<Tally, ServeFault>
    ensures { IfOk result (λ t. t ≡ tally) }
{
    if let Some(share) = share {
        send_all(writer, &[share.text.as_slice()])?;
    }
    send_tally(writer, tally)?;
    match writer.flush() {
        Ok(()) => Ok(tally),
        Err(_) => Err(ServeFault::Write),
    }
}

/// Runs the tests of the files by a plan, writes to standard output what isn't as it is to be and how many tests
/// passed, and to the file of that path, if there is one, what became of them as JUnit XML. Gives the exit status.
fn test_by<R: Files + Input + Print + Eprint + AllocGlobal>(
    rt: &R,
    plan: TestPlan<'_>,
    tests: AskedTests<'_, '_>,
) -> u8
    ensures { IsOfTests result }
{
    let Ok(mut writer) = BufWriter::new(rt.alloc(), io::writer(rt)) else {
        return status_of(rt, ServeFault::Memory);
    };
    let mut gathered = Gathered::new(rt.alloc(), tests);
    let ended = test_each(rt, plan, tests.files, &mut writer, &mut gathered);
    let Ok(share) = gathered.share(rt.alloc()) else {
        return status_of(rt, ServeFault::Memory);
    };
    let status = test_status(rt, write_end(&mut writer, &share, ended.tally));
    let status = covered_status(rt, tests.least, &share, ended.status(status));
    match tests.junit {
        Some(path) => match write_junit(rt, path, gathered.suites.as_slice()) {
            Ok(()) => status,
            Err(fault) => fault_status(fault),
        },
        None => status,
    }
}

/// Runs the tests that are asked for, or lists them, and gives the exit status: that of the last fault, if there was
/// one, 1 where a test failed or none ran, and 0 where all passed.
///
/// Its contract leaves open: how the tests ended: any status of an end would do. Trials and stored runs show which.
pub fn run_tests<R: Files + Input + Print + Eprint + AllocGlobal>(
    rt: &R,
    limits: Limits,
    tests: AskedTests<'_, '_>,
) -> u8
    ensures { IsOfTests result }
{
    if let Err(unmet) = pass_tests(rt, &tests) {
        return unmet_status(unmet);
    }
    let plan = TestPlan {
        only: tests.only,
        limits,
        ..TestPlan::all()
    };
    if tests.listed {
        return list_by(rt, plan, tests.files);
    }
    let Some(source) = tests.state else {
        return test_by(rt, plan, tests);
    };
    match read_state(rt, source) {
        Ok(state) => {
            let plan = TestPlan {
                state_name: source.name(),
                state: state.as_slice(),
                only: tests.only,
                limits,
            };
            test_by(rt, plan, tests)
        }
        Err(fault) => fault_status(fault),
    }
}
