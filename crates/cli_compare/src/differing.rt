//! `review compare`: what differs between the tables behind the lines of a state and behind others.

ghost use Rattle.std.specs.Prelude.{◌≡◌, ◌≢◌, ◌++◌, ℕ, List, IfErr, IfOk, OnOk, option_map};
ghost use Rattle.std.specs.Io.KnownBytes.{Appends};
ghost use Rattle.serde_json.specs.View.{view};
ghost use Rattle.ent_wire.specs.declared.fault.ServeFault.TheVariants.{Read};
ghost use Rattle.cli_compare.specs.Differing.{Compares, GivesTable, IsTextOf, base_of, ended_by, is_state};
ghost use Rattle.cli_compare.specs.Differing.{says_format, table_line};
ghost use Rattle.cli_replies.specs.Comparing.{asked};

use cli_replies::{Lines, compare, is_wanting, push_asked, split_reply};
use cli_serve::{MODULES, replies_to};
use cli_words::Form;
use ent_json::{read_json, text_at};
use ent_table::Limits;
use ent_wire::{ServeFault, send_all};
use json::Scratch;
use script_compare::{Way, difference, has, is_nothing, markdown, shown};
use script_files::SentLine;
use serde_json::Value;
use std::alloc::{AllocError, Global};
use std::io::Write;

/// The line that asks for the table.
const TABLE: &[u8] = b"{\"do\":\"table\"}\n";

/// How a comparison ended.
#[derive(Clone, Copy, Debug, PartialEq, Eq)]
pub enum Ending {
    /// Nothing differs.
    Same,
    /// Something differs: whether a request gains Permit, and whether one loses it.
    Different(bool, bool),
    /// A line was refused, so nothing was compared.
    Refused,
}

/// Whether a line says what format those behind it have, as the first line of a dump does.
fn says_format(alloc: Global, line: &[u8]) -> Result<bool, AllocError>
    ensures { IfOk result (λ says. says ≡ says_format line.now) }
{
    let mut scratch = Scratch::new(alloc);
    match read_json(alloc, line, &mut scratch)? {
        Some(json) => Ok(text_at(&json, "do").unwrap_or("") == "format"),
        None => Ok(false),
    }
}

/// Whether lines are those of a state of their own.
fn is_state(alloc: Global, steps: &[SentLine]) -> Result<bool, AllocError>
    ensures { IfOk result (λ state. state ≡ is_state steps.now) }
{
    match steps.first() {
        Some(step) => says_format(alloc, step.line.as_slice()),
        None => Ok(false),
    }
}

/// The lines behind which changes are sent: none where these are those of a state of their own, else those of the
/// state.
fn base_of<'a>(
    alloc: Global,
    state: &'a [SentLine],
    changes: &'a [SentLine],
) -> Result<&'a [SentLine], AllocError>
    ensures { IfOk result (λ base. base.now ≡ base_of state.now changes.now) }
{
    if is_state(alloc, changes)? {
        Ok(&[])
    } else {
        Ok(state)
    }
}

/// What is sent to have the table behind lines, and others behind those.
#[tactic(auto, using(cli_replies::proofs::Compared::asked_both))]
fn asking(alloc: Global, first: &[SentLine], second: &[SentLine]) -> Result<Vec<u8>, AllocError>
    ensures { IfOk result (λ v. v.items ≡ asked (first.now ++ second.now) ++ table_line) }
{
    let mut lines = Vec::new(alloc);
    push_asked(first, &mut lines)?;
    push_asked(second, &mut lines)?;
    lines.extend_from_slice(TABLE)?;
    Ok(lines)
}

/// What a new service tells of its table behind lines of a file of that name, and those of another, if it accepts all
/// of them; else those that it refuses are told.
fn table_behind<W: Write>(
    alloc: Global,
    limits: Limits,
    name: &str,
    base: &[SentLine],
    lines: Lines<'_>,
    writer: &mut W,
) -> Result<Option<Vec<u8>>, ServeFault>
    ensures table { IfOk result (λ o. GivesTable limits name.now base.now lines.entry
        (W.contents writer.old) (W.contents writer.new) (option_map (λ v. v.items) o)) }
    ensures fault { IfErr result (λ e. e ≢ Read) }
{
    let sent = asking(alloc, base, lines.steps)?;
    let replies = replies_to(alloc, limits, MODULES, sent.as_slice())?;
    let (accepted, rest) = compare(alloc, name, base, replies.as_slice(), writer)?;
    let (also, rest) = compare(alloc, lines.name, lines.steps, rest, writer)?;
    if !(accepted & also) {
        return Ok(None);
    }
    let (reply, _) = split_reply(rest);
    if is_wanting(reply) {
        return Err(ServeFault::Memory);
    }
    Ok(Some(Vec::from_slice(alloc, reply)?))
}

/// Writes what is told of two tables, in a form.
fn send_told<W: Write>(
    alloc: Global,
    form: Form,
    told: &Value,
    writer: &mut W,
) -> Result<(), ServeFault>
    ensures sent { OnOk result ((text : List ℕ) × IsTextOf form (view told.now) text
        × Appends (W.contents writer.old) (W.contents writer.new) text) }
    ensures fault { IfErr result (λ e. e ≢ Read) }
{
    match form {
        Form::Json => {
            let text = told.to_string(alloc)?;
            send_all(writer, &[text.as_bytes(), b"\n"])
        }
        Form::Table => {
            let text = shown(alloc, told)?;
            send_all(writer, &[text.as_slice()])
        }
        Form::Markdown => {
            let text = markdown(alloc, told)?;
            send_all(writer, &[text.as_slice()])
        }
    }
}

/// Writes what is told of two tables, in a form, and says whether anything differs.
fn send_difference<W: Write>(
    alloc: Global,
    form: Form,
    told: &Value,
    writer: &mut W,
) -> Result<Ending, ServeFault>
    ensures sent { OnOk result ((text : List ℕ) × IsTextOf form (view told.now) text
        × Appends (W.contents writer.old) (W.contents writer.new) text) }
    ensures ended { IfOk result (λ ended. ended ≡ ended_by (view told.now)) }
    ensures fault { IfErr result (λ e. e ≢ Read) }
{
    send_told(alloc, form, told, writer)?;
    if is_nothing(told) {
        Ok(Ending::Same)
    } else {
        Ok(Ending::Different(has(Way::Gained, told), has(Way::Lost, told)))
    }
}

/// Writes what differs between the tables behind the lines of a state and behind changes, and says whether anything
/// does.
///
/// The changes are lines that are sent behind those of the state; or, where the first of them is `format`, as in a
/// dump, the lines of a state of their own. Each service is a new one within those limits, over two modules of each
/// sort. What differs is one line of JSON ([`difference`](script_compare::difference)), a table
/// ([`shown`](script_compare::shown)), or Markdown ([`markdown`](script_compare::markdown)). Where a line is refused,
/// it is told by two lines, `NAME:LINE: expected no refusal` and `NAME:LINE: replied REPLY`, and nothing is compared.
/// Faults: the writer's, which may have taken a front of what is written, and want of memory.
///
/// Its contract leaves open: when it answers want of memory, and how much a failing writer took.
#[tactic(auto, using(crate::proofs::Differences::compared, crate::proofs::Differences::refused_second))]
pub fn compare_from<W: Write>(
    alloc: Global,
    limits: Limits,
    form: Form,
    state: Lines<'_>,
    changes: Lines<'_>,
    writer: &mut W,
) -> Result<Ending, ServeFault>
    ensures { Compares limits form state.entry changes.entry (W.contents writer.old) (W.contents writer.new) result }
{
    let base = base_of(alloc, state.steps, changes.steps)?;
    let Some(first) = table_behind(alloc, limits, "", &[], state, writer)? else {
        return Ok(Ending::Refused);
    };
    let Some(second) = table_behind(alloc, limits, state.name, base, changes, writer)? else {
        return Ok(Ending::Refused);
    };
    match difference(alloc, first.as_slice(), second.as_slice())? {
        Some(told) => send_difference(alloc, form, &told, writer),
        // A service that accepts lines tells its table as long as there is memory.
        None => Err(ServeFault::Memory),
    }
}
