//! Tests that only ask: they share one service behind the lines of the state, since they leave it as it is.

ghost use Rattle.std.specs.Prelude.{◌≡◌, ◌≢◌, ◌++◌, [], true, false, IfErr, IfOk, OnOk, if◌then◌else◌};
ghost use Rattle.std.specs.Io.KnownBytes.{Appends};
ghost use Rattle.ent_wire.specs.declared.fault.ServeFault.TheVariants.{Memory, Read};
ghost use Rattle.cli_replies.specs.Comparing.{behind, asked};
ghost use Rattle.cli_serve.specs.Replying.{AreRepliesTo};
ghost use Rattle.cli_test.specs.Testing.{IsRun, sent_to};
ghost use Rattle.cli_test.specs.proofs_only.Sharing.{AreShared, are_asking, are_lines, front, is_asking, is_line};
ghost use Rattle.cli_test.specs.proofs_only.Sharing.{shared_steps, shares, sharing};

use crate::testing::{TestPlan, is_chosen, run_by, run_one};
use cli_replies::{behind, push_asked};
use cli_serve::{MODULES, few, replies_to};
use ent_command::only_asks;
use ent_line::{questions_leave_all, replies_are_fresh};
use ent_wire::ServeFault;
use script_files::{SentLine, Session};
use script_junit::TestCase;
use std::alloc::{AllocError, Global};
use std::io::Write;

/// What is at hand for the tests that are left.
#[derive(Clone, Copy)]
pub(crate) struct AtHand<'r> {
    /// Whether what is sent in each step of the state is one line.
    pub(crate) is_clean: bool,
    /// The replies of the service that tests share to the state.
    pub(crate) first: &'r [u8],
    /// Its replies to those of these tests that share it.
    pub(crate) rest: &'r [u8],
}

/// Whether what is sent in a step is one line.
fn is_line(step: &SentLine) -> bool
    ensures { result ≡ is_line step.now }
{
    let line = step.line.as_slice();
    for &byte in line {
        if byte == b'\n' {
            return false;
        }
    }
    true
}

/// Whether what is sent in each of these steps is one line.
pub(crate) fn are_lines(steps: &[SentLine]) -> bool
    ensures { result ≡ are_lines steps.now }
{
    for step in steps {
        if !is_line(step) {
            return false;
        }
    }
    true
}

/// Whether what is sent in a step is one line, which only asks.
fn is_asking(alloc: Global, step: &SentLine) -> Result<bool, AllocError>
    ensures { IfOk result (λ asks. asks ≡ is_asking step.now) }
{
    if !is_line(step) {
        return Ok(false);
    }
    only_asks(alloc, step.line.as_slice())
}

/// Whether what is sent in each of these steps is one line, which only asks.
fn are_asking(alloc: Global, steps: &[SentLine]) -> Result<bool, AllocError>
    ensures { IfOk result (λ ask. ask ≡ are_asking steps.now) }
{
    for step in steps {
        if !is_asking(alloc, step)? {
            return Ok(false);
        }
    }
    Ok(true)
}

/// Whether a test shares a service of two modules of each sort with others: it runs, and only asks.
fn shares(
    alloc: Global,
    is_clean: bool,
    plan: TestPlan<'_>,
    session: &Session,
) -> Result<bool, AllocError>
    requires { is_clean ≡ are_lines plan.state.now }
    ensures { IfOk result (λ b. b ≡ shares plan.entry session.now) }
{
    if !is_clean || !is_chosen(plan.only, session) || few(session.modules) != MODULES {
        return Ok(false);
    }
    are_asking(alloc, session.steps.as_slice())
}

/// Puts the lines of those tests that share a service behind others, and says whether there is such a test.
fn push_shared(
    alloc: Global,
    is_clean: bool,
    plan: TestPlan<'_>,
    sessions: &[Session],
    lines: &mut Vec<u8>,
) -> Result<bool, AllocError>
    requires { is_clean ≡ are_lines plan.state.now }
    ensures lines { OnOk result (lines.new.items
        ≡ lines.old.items ++ asked (shared_steps plan.entry sessions.now)) }
    ensures none { IfOk result (λ some. some ≡ false → sharing plan.entry sessions.now ≡ []) }
{
    let mut some = false;
    for session in sessions {
        if shares(alloc, is_clean, plan, session)? {
            push_asked(session.steps.as_slice(), lines)?;
            some = true;
        }
    }
    Ok(some)
}

/// The replies of a service to the lines of the state and to those of the tests that share it; nothing where none does.
pub(crate) fn shared_replies(
    alloc: Global,
    is_clean: bool,
    plan: TestPlan<'_>,
    sessions: &[Session],
) -> Result<Vec<u8>, ServeFault>
    requires { is_clean ≡ are_lines plan.state.now }
    ensures replies { IfOk result (λ v. AreShared plan.entry (front plan.entry.state.now v.items)
        (sharing plan.entry sessions.now) (behind plan.entry.state.now v.items)) }
    ensures fault { IfErr result (λ e. e ≡ Memory) }
{
    questions_leave_all();
    replies_are_fresh();
    let mut lines = Vec::new(alloc);
    push_asked(plan.state, &mut lines)?;
    if !push_shared(alloc, is_clean, plan, sessions, &mut lines)? {
        return Ok(Vec::new(alloc));
    }
    replies_to(alloc, plan.limits, MODULES, lines.as_slice())
}

/// The replies to steps at the front of others, and what stands behind them.
pub(crate) fn split_replies<'r>(steps: &[SentLine], replies: &'r [u8]) -> (&'r [u8], &'r [u8])
    ensures front { result.0.now ≡ front steps.now replies.now }
    ensures behind { result.1.now ≡ behind steps.now replies.now }
{
    let rest = behind(steps, replies);
    let count = replies.len().saturating_sub(rest.len());
    (&replies[..count], rest)
}

/// Runs the next of some tests, by the replies that are at hand where it shares a service, else over one of its own.
/// Writes what isn't as it is to be, and says what became of the test, and which replies are left.
pub(crate) fn run_next<'r, W: Write>(
    alloc: Global,
    plan: TestPlan<'_>,
    name: &str,
    session: &Session,
    at_hand: AtHand<'r>,
    writer: &mut W,
) -> Result<(TestCase, &'r [u8]), ServeFault>
    requires clean { at_hand.is_clean ≡ are_lines plan.state.now }
    requires at_hand { shares plan session.now ≡ true → AreRepliesTo plan.limits session.now.modules
        (sent_to plan.state.now session.now) (at_hand.first.now ++ front session.now.steps at_hand.rest.now) }
    ensures ran { IfOk result (λ r. IsRun plan.entry name.now session.now r.0) }
    ensures left { IfOk result (λ r. r.1.now ≡ (if shares plan.entry session.now
        then behind session.now.steps at_hand.entry.rest.now else at_hand.entry.rest.now)) }
    ensures told { IfOk result (λ r. Appends (W.contents writer.old) (W.contents writer.new) r.0.told) }
    ensures fault { IfErr result (λ e. e ≢ Read) }
{
    if !shares(alloc, at_hand.is_clean, plan, session)? {
        let case = run_one(alloc, plan, name, session, writer)?;
        return Ok((case, at_hand.rest));
    }
    let (own, left) = split_replies(session.steps.as_slice(), at_hand.rest);
    let mut replies = Vec::from_slice(alloc, at_hand.first)?;
    replies.extend_from_slice(own)?;
    let case = run_by(alloc, plan, name, session, replies.as_slice(), writer)?;
    Ok((case, left))
}
