//! The comparison that the command line asks for, over the runtime that the program is started with.

ghost use Rattle.std.specs.Prelude.{◌≡◌, ◌≢◌, Err, None, Result};
ghost use Rattle.cli_compare.specs.Ends.{IsOfStates};
ghost use Rattle.cli_compare.specs.Statuses.{compare_status};
ghost use Rattle.cli_compare.specs.declared.differing.Ending.{Ending};
ghost use Rattle.cli_words.specs.declared.status.Unmet.{Unmet};
ghost use Rattle.cli_words.specs.declared.status.Unmet.TheVariants.{Refused};

use crate::covering::cover_from;
use crate::differing::{Ending, compare_from};
use crate::status::compare_status;
use cli_replies::{Lines, read_state};
use cli_words::{AskedCoverage, AskedStates, Form, Unmet, pass_states, tell};
use ent_table::Limits;
use ent_wire::ServeFault;
use std::alloc::Global;
use std::io;
use std::io::{BufWriter, Write};
use std::rt::Files;

/// Compares the tables behind lines, writes what differs, and flushes the writer.
fn write_difference<W: Write>(
    alloc: Global,
    limits: Limits,
    form: Form,
    state: Lines<'_>,
    changes: Lines<'_>,
    writer: &mut W,
) -> Result<Ending, ServeFault> {
    let compared = compare_from(alloc, limits, form, state, changes, writer)?;
    match writer.flush() {
        Ok(()) => Ok(compared),
        Err(_) => Err(ServeFault::Write),
    }
}

/// Compares the tables behind the lines of two sources, and writes what differs to standard output. A fault is told on
/// standard error.
fn compare_sources<R: Files + Input + Print + Eprint + AllocGlobal>(
    rt: &R,
    limits: Limits,
    states: AskedStates<'_>,
) -> Result<Ending, Unmet>
    ensures { IsOfStates states.entry result }
{
    pass_states(rt, &states)?;
    let first = read_state(rt, states.state)?;
    let second = read_state(rt, states.changes)?;
    let alloc = rt.alloc();
    let Ok(mut writer) = BufWriter::new(alloc, io::writer(rt)) else {
        return Err(Unmet::Failed(tell(rt, ServeFault::Memory)));
    };
    let state = Lines {
        name: states.state.name(),
        steps: first.as_slice(),
    };
    let changes = Lines {
        name: states.changes.name(),
        steps: second.as_slice(),
    };
    match write_difference(alloc, limits, states.form, state, changes, &mut writer) {
        Ok(ending) => Ok(ending),
        Err(fault) => Err(Unmet::Failed(tell(rt, fault))),
    }
}

/// Does the comparison that is asked for, and gives the exit status: 0 where nothing differs, 1 where something does,
/// and 2 where a line was refused; where it is said which differences fail, 4 where there are such, and else 0.
///
/// Its contract leaves open: how the comparison ended: any status of such an end would do. Trials and stored runs show
/// which.
pub fn compare_states<R: Files + Input + Print + Eprint + AllocGlobal>(
    rt: &R,
    limits: Limits,
    states: AskedStates<'_>,
) -> u8
    ensures { (compared : Result Ending Unmet) × IsOfStates states.entry compared
        × (result ≡ compare_status states.entry.failing compared) }
{
    let compared = compare_sources(rt, limits, states);
    compare_status(states.failing, compared)
}

/// Writes which rules of a state give no decision in its table, and flushes the writer.
fn write_coverage<W: Write>(
    alloc: Global,
    limits: Limits,
    is_json: bool,
    state: Lines<'_>,
    writer: &mut W,
) -> Result<Ending, ServeFault> {
    let covered = cover_from(alloc, limits, is_json, state, writer)?;
    match writer.flush() {
        Ok(()) => Ok(covered),
        Err(_) => Err(ServeFault::Write),
    }
}

/// Tells on standard output which rules of a state give no decision in its table. A fault is told on standard error.
fn cover_source<R: Files + Input + Print + Eprint + AllocGlobal>(
    rt: &R,
    limits: Limits,
    asked: AskedCoverage<'_>,
) -> Result<Ending, Unmet>
    ensures { result ≢ Err Refused }
{
    let steps = read_state(rt, asked.state)?;
    let alloc = rt.alloc();
    let Ok(mut writer) = BufWriter::new(alloc, io::writer(rt)) else {
        return Err(Unmet::Failed(tell(rt, ServeFault::Memory)));
    };
    let state = Lines {
        name: asked.state.name(),
        steps: steps.as_slice(),
    };
    match write_coverage(alloc, limits, asked.is_json, state, &mut writer) {
        Ok(ending) => Ok(ending),
        Err(fault) => Err(Unmet::Failed(tell(rt, fault))),
    }
}

/// Does so, and gives the exit status: 0, or 2 where a line was refused.
///
/// Its contract leaves open: how it ended: any status of such an end would do. Trials show which.
pub fn cover_state<R: Files + Input + Print + Eprint + AllocGlobal>(
    rt: &R,
    limits: Limits,
    asked: AskedCoverage<'_>,
) -> u8
    ensures { (covered : Result Ending Unmet) × (covered ≢ Err Refused) × (result ≡ compare_status None covered) }
{
    let covered = cover_source(rt, limits, asked);
    compare_status(None, covered)
}
