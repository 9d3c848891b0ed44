//! `review test`: sessions of a file, and whether a service replies to them as they expect.

ghost use Rattle.std.specs.Prelude.{◌≡◌, ◌≢◌, [], None, true, IfErr, IfOk, IfSome, OnOk};
ghost use Rattle.std.specs.Io.KnownBytes.{Appends};
ghost use Rattle.ent_wire.specs.declared.fault.ServeFault.TheVariants.{Read};
ghost use Rattle.cli_test.specs.Testing.{IsRun, Tests, TestsBytes, TestsEach, case_of, has_expected, is_chosen};
ghost use Rattle.cli_test.specs.Testing.{passed, passes, sent_to, sure, told_of, told_of_test};
ghost use Rattle.cli_replies.specs.Comparing.{are_sure};
ghost use Rattle.ent_table.specs.Limits.{standard_limits};

use crate::sharing::{AtHand, are_lines, run_next, shared_replies, split_replies};
use crate::untested::{NO_TEST, line_on, misplaced_line, untested};
use cli_replies::{compare, push_asked, tell};
use cli_serve::replies_to;
use ent_table::Limits;
use ent_values::Items;
use ent_wire::{ServeFault, send_all};
use script_files::{SentLine, Session, SessionFault, read_sessions};
use script_junit::{Suite, TestCase};
use std::alloc::{AllocError, Global};
use std::io::{ErrorKind, Read, Write};

/// What is told of a test that says of no reply what it is to be.
const NOTHING_EXPECTED: &[u8] = b"no reply is expected";

/// From what each test of a file begins, and which of them run.
#[derive(Clone, Copy)]
pub struct TestPlan<'a> {
    /// What the file of the lines is called with which each test begins.
    pub state_name: &'a str,
    /// These lines.
    pub state: &'a [SentLine],
    /// What the tests are called that run, where not all do.
    pub only: Option<&'a str>,
    /// The limits of their services.
    pub limits: Limits,
}

impl TestPlan<'_> {
    /// No lines, all tests run, and the limits are those that hold where none are given.
    ///
    /// Its contract leaves open: the name of the file of the state, of which there is none.
    pub fn all() -> TestPlan<'static>
        ensures state { result.state.now ≡ [] }
        ensures only { result.only ≡ None }
        ensures limits { result.limits ≡ standard_limits }
    {
        TestPlan {
            state_name: "",
            state: &[],
            only: None,
            limits: Limits::standard(),
        }
    }
}

/// All bytes of the reader.
fn read_whole<R: Read>(alloc: Global, reader: &mut R) -> Result<Vec<u8>, ServeFault>
    ensures { IfOk result (λ v. IfSome (R.remaining reader.old) (λ all. v.items ≡ all)) }
{
    let mut bytes = Vec::new(alloc);
    match reader.read_to_end(&mut bytes) {
        Ok(_) => Ok(bytes),
        Err(e) if e.kind() == ErrorKind::OutOfMemory => Err(ServeFault::Memory),
        Err(_) => Err(ServeFault::Read),
    }
}

/// What is sent to the service of a session: the lines of a state, and then its own.
#[tactic(auto, using(cli_replies::proofs::Compared::asked_both))]
fn sent_to(alloc: Global, state: &[SentLine], session: &Session) -> Result<Vec<u8>, AllocError>
    ensures { IfOk result (λ v. v.items ≡ sent_to state.now session.now) }
{
    let mut lines = Vec::new(alloc);
    push_asked(state, &mut lines)?;
    push_asked(session.steps.as_slice(), &mut lines)?;
    Ok(lines)
}

/// Whether steps say of a reply what it is to be.
fn has_expected(steps: &[SentLine]) -> bool
    ensures { result ≡ has_expected steps.now }
{
    for step in steps {
        if step.expected.is_some() {
            return true;
        }
    }
    false
}

/// Writes the replies to a session that aren't as it expects, or that it expects none, and says whether it passes.
fn compare_test<W: Write>(
    alloc: Global,
    name: &str,
    session: &Session,
    replies: &[u8],
    writer: &mut W,
) -> Result<bool, ServeFault>
    ensures passed { IfOk result (λ passed. passed ≡ passes session.now.steps replies.now) }
    ensures sure { OnOk result (are_sure session.now.steps replies.now ≡ true) }
    ensures told { OnOk result (Appends (W.contents writer.old) (W.contents writer.new)
        (told_of_test name.now session.now replies.now)) }
    ensures fault { IfErr result (λ e. e ≢ Read) }
{
    let expects = has_expected(session.steps.as_slice());
    if !expects {
        tell(name, session.number, ": ", NOTHING_EXPECTED, writer)?;
    }
    let (met, _) = compare(alloc, name, session.steps.as_slice(), replies, writer)?;
    Ok(expects && met)
}

/// Judges the replies to the lines of a plan's state and then to those of a session: writes those that aren't as they
/// are to be, and what the session is called if it fails. Says whether it passes.
#[tactic(auto, using(crate::proofs::Tests::failing, crate::proofs::Tests::passing, crate::proofs::Tests::refusing))]
fn judge<W: Write>(
    alloc: Global,
    plan: TestPlan<'_>,
    name: &str,
    session: &Session,
    replies: &[u8],
    writer: &mut W,
) -> Result<bool, ServeFault>
    ensures passed { IfOk result (λ p. p ≡ passed plan.entry (session.now, replies.now)) }
    ensures sure { OnOk result (sure plan.entry (session.now, replies.now) ≡ true) }
    ensures told { OnOk result (Appends (W.contents writer.old) (W.contents writer.new)
        (told_of name.now plan.entry (session.now, replies.now))) }
    ensures fault { IfErr result (λ e. e ≢ Read) }
{
    let (accepted, behind) = compare(alloc, plan.state_name, plan.state, replies, writer)?;
    let mut passed = accepted;
    if accepted {
        passed = compare_test(alloc, name, session, behind, writer)?;
    }
    if !passed {
        tell(
            name,
            session.number,
            ": failed ",
            session.name.as_slice(),
            writer,
        )?;
    }
    Ok(passed)
}

/// Whether a session runs.
pub(crate) fn is_chosen(only: Option<&str>, session: &Session) -> bool
    ensures { result ≡ is_chosen only.entry session.now }
{
    match only {
        Some(name) => session.name.as_slice() == name.as_bytes(),
        None => true,
    }
}

/// What became of a session that passed or failed, of which that was told.
fn case_of(
    alloc: Global,
    session: &Session,
    passed: bool,
    told: Vec<u8>,
) -> Result<TestCase, AllocError>
    ensures { IfOk result (λ test. test ≡ record {
      name = session.now.name;
      number = session.now.number;
      passed = passed;
      told = told.items;
    }) }
{
    let name = Vec::from_slice(alloc, session.name.as_slice())?;
    Ok(TestCase {
        name: Items::from_vec(name),
        number: session.number,
        passed,
        told: Items::from_vec(told),
    })
}

/// Judges a session by the replies to what is sent to its service, writes what isn't as it is to be, and says what
/// became of it.
#[tactic(auto, using(crate::proofs::Tests::told_alone))]
pub(crate) fn run_by<W: Write>(
    alloc: Global,
    plan: TestPlan<'_>,
    name: &str,
    session: &Session,
    replies: &[u8],
    writer: &mut W,
) -> Result<TestCase, ServeFault>
    ensures ran { IfOk result (λ test. (sure plan.entry (session.now, replies.now) ≡ true)
        × (test ≡ case_of name.now plan.entry (session.now, replies.now))) }
    ensures told { IfOk result (λ test. Appends (W.contents writer.old) (W.contents writer.new) test.told) }
    ensures fault { IfErr result (λ e. e ≢ Read) }
{
    let mut told = Vec::new(alloc);
    let judged = judge(alloc, plan, name, session, replies, &mut told);
    send_all(writer, &[told.as_slice()])?;
    match judged {
        Ok(passed) => Ok(case_of(alloc, session, passed, told)?),
        // A list takes what is told as long as there is memory.
        Err(_) => Err(ServeFault::Memory),
    }
}

/// Runs a session over a service of its own, writes what isn't as it is to be, and says what became of it.
pub(crate) fn run_one<W: Write>(
    alloc: Global,
    plan: TestPlan<'_>,
    name: &str,
    session: &Session,
    writer: &mut W,
) -> Result<TestCase, ServeFault>
    ensures ran { IfOk result (λ test. IsRun plan.entry name.now session.now test) }
    ensures told { IfOk result (λ test. Appends (W.contents writer.old) (W.contents writer.new) test.told) }
    ensures fault { IfErr result (λ e. e ≢ Read) }
{
    let lines = sent_to(alloc, plan.state, session)?;
    let replies = replies_to(alloc, plan.limits, session.modules, lines.as_slice())?;
    run_by(alloc, plan, name, session, replies.as_slice(), writer)
}

/// Runs those of the sessions that are chosen, writes of each what isn't as it is to be, and says what became of them:
/// each as over a service of its own, but those that only ask share one.
fn test_each<W: Write>(
    alloc: Global,
    plan: TestPlan<'_>,
    name: &str,
    sessions: &[Session],
    writer: &mut W,
) -> Result<Items<TestCase>, ServeFault>
    ensures { TestsEach plan.entry name.now sessions.now (W.contents writer.old) (W.contents writer.new) result }
{
    let is_clean = are_lines(plan.state);
    let replies = shared_replies(alloc, is_clean, plan, sessions)?;
    let (first, mut rest) = split_replies(plan.state, replies.as_slice());
    let mut cases = Items::new(alloc);
    for session in sessions {
        if is_chosen(plan.only, session) {
            let at_hand = AtHand {
                is_clean,
                first,
                rest,
            };
            let (case, left) = run_next(alloc, plan, name, session, at_hand, writer)?;
            cases.push(case)?;
            rest = left;
        }
    }
    Ok(cases)
}

/// Runs the sessions of a file that are chosen, each over a service of its own, writes what isn't as it is to be, and
/// says what became of them.
fn test_bytes<'n, W: Write>(
    alloc: Global,
    plan: TestPlan<'_>,
    name: &'n str,
    bytes: &[u8],
    writer: &mut W,
) -> Result<Suite<'n>, ServeFault>
    ensures { TestsBytes plan.entry name.now bytes.now (W.contents writer.old) (W.contents writer.new) result }
{
    match read_sessions(alloc, bytes) {
        Ok(sessions) if sessions.is_empty() => {
            let line = line_on(alloc, name, 1, ": ", NO_TEST)?;
            untested(alloc, name, line, writer)
        }
        Ok(sessions) => {
            let cases = test_each(alloc, plan, name, sessions.as_slice(), writer)?;
            Ok(Suite {
                name,
                cases,
                error: None,
            })
        }
        Err(SessionFault::Memory) => Err(ServeFault::Memory),
        Err(SessionFault::Form(number, mistake)) => {
            let line = misplaced_line(alloc, name, number, mistake)?;
            untested(alloc, name, line, writer)
        }
    }
}

/// Runs the sessions of a file of that name, each over a service of its own, and says what became of them: those passed
/// in which each reply is as it is expected, and none that nothing is said of is a refusal. Each begins with the lines
/// of the plan's state, all of which have to be accepted, and has to expect a reply.
///
/// A reply that isn't as expected is written as two lines, `NAME:LINE: expected REPLY` and `NAME:LINE: replied REPLY`
/// with the number of the line that was sent, and the mark `=` or `~` where it isn't compared byte by byte; `no
/// refusal` is expected where the file says nothing. Below them stands `NAME:LINE: differs at PLACE: ..` for each place
/// at which a reply that is compared as JSON isn't as expected, with both values ([`places`](script_matching::places)).
/// Behind those of a session stands `NAME:LINE: failed SESSION`, with the line of its heading. None of the tests of a
/// file runs that hasn't the form of sessions ([`read_sessions`]), and `NAME:LINE: this line can't stand here: WHY` is
/// written; nor of one that has no session. The writer is flushed at the end. Faults: the reader's, after which nothing
/// was written, the writer's, which may have taken a front of what is written, and want of memory, also of a service
/// that replies so where that isn't expected.
///
/// Its contract leaves open: how much of a longer input is read, when it answers a read fault or want of memory, and
/// how much a failing writer took.
pub fn test_from<'n, R: Read, W: Write>(
    alloc: Global,
    plan: TestPlan<'_>,
    name: &'n str,
    reader: &mut R,
    writer: &mut W,
) -> Result<Suite<'n>, ServeFault>
    ensures { Tests plan.entry name.now (R.remaining reader.old)
        (W.contents writer.old) (W.contents writer.new) result }
{
    let bytes = read_whole(alloc, reader)?;
    let suite = test_bytes(alloc, plan, name, bytes.as_slice(), writer)?;
    match writer.flush() {
        Ok(()) => Ok(suite),
        Err(_) => Err(ServeFault::Write),
    }
}
