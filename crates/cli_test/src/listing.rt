//! `review test --list`: the tests of a file that would run.

ghost use Rattle.std.specs.Prelude.{◌≡◌, ◌≢◌, IfErr, IfOk, OnOk, length};
ghost use Rattle.std.specs.Io.KnownBytes.{Appends};
ghost use Rattle.std.specs.List.{flat_map};
ghost use Rattle.ent_wire.specs.declared.fault.ServeFault.TheVariants.{Read};
ghost use Rattle.cli_test.specs.Listing.{Lists, heading_told};
ghost use Rattle.cli_test.specs.Testing.{chosen};

use crate::tally::Tally;
use crate::testing::{TestPlan, is_chosen};
use crate::untested::{NO_TEST, tell_mistake};
use cli_replies::tell;
use ent_wire::ServeFault;
use script_files::{Session, SessionFault, read_sessions};
use std::alloc::Global;
use std::io::Write;

/// How many of these sessions would run.
#[tactic(auto, using(crate::proofs::Headings::counted_more))]
fn count_chosen(plan: TestPlan<'_>, sessions: &[Session]) -> usize
    ensures { result ≡ length (chosen plan.entry sessions.now) }
{
    let mut count = 0;
    for session in sessions {
        if is_chosen(plan.only, session) {
            count += 1;
        }
    }
    count
}

/// Writes where each of the sessions begins that would run, and what it is called.
#[tactic(auto, using(crate::proofs::Headings::listed_more, crate::proofs::Headings::listed_same))]
fn tell_chosen<W: Write>(
    plan: TestPlan<'_>,
    name: &str,
    sessions: &[Session],
    writer: &mut W,
) -> Result<(), ServeFault>
    ensures told { OnOk result (Appends (W.contents writer.old) (W.contents writer.new)
        (flat_map (heading_told name.now) (chosen plan.entry sessions.now))) }
    ensures fault { IfErr result (λ e. e ≢ Read) }
{
    for session in sessions {
        if is_chosen(plan.only, session) {
            tell(name, session.number, ": ", session.name.as_slice(), writer)?;
        }
    }
    Ok(())
}

/// Writes of each session of the bytes of a file that a plan chooses where it begins and what it is called, as
/// `NAME:LINE: SESSION`, and counts them as passed. None runs. Bytes that haven't the form of sessions, or that have
/// none, count as one that failed, and it is written as by [`test_from`](crate::test_from). Faults: the writer's, which
/// may have taken a front of what is written, and want of memory.
///
/// Its contract leaves open: when it answers want of memory, and how much a failing writer took.
#[tactic(auto, using(crate::proofs::Headings::all_listed, crate::proofs::Headings::misplaced_listed))]
pub fn list_tests<W: Write>(
    alloc: Global,
    plan: TestPlan<'_>,
    name: &str,
    bytes: &[u8],
    writer: &mut W,
) -> Result<Tally, ServeFault>
    ensures { Lists plan.entry name.now bytes.now (W.contents writer.old) (W.contents writer.new) result }
{
    match read_sessions(alloc, bytes) {
        Ok(sessions) if sessions.is_empty() => {
            tell(name, 1, ": ", NO_TEST, writer)?;
            Ok(Tally::one_failed())
        }
        Ok(sessions) => {
            tell_chosen(plan, name, sessions.as_slice(), writer)?;
            Ok(Tally {
                passed: count_chosen(plan, sessions.as_slice()) as u64,
                failed: 0,
            })
        }
        Err(SessionFault::Memory) => Err(ServeFault::Memory),
        Err(SessionFault::Form(number, mistake)) => {
            tell_mistake(name, number, mistake, writer)?;
            Ok(Tally::one_failed())
        }
    }
}
