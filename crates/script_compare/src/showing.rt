//! What differs between two tables, as a person reads it.

ghost use Rattle.std.specs.Prelude.{◌≡◌, ◌++◌, Some, IfOk, OnOk, codes, decimal, map, option_and_then};
ghost use Rattle.std.specs.Prelude.{option_map, replicate, unwrap_or};
ghost use Rattle.serde_json.specs.Find.{as_number, as_u64};
ghost use Rattle.serde_json.specs.View.{members_view, view};
ghost use Rattle.script_compare.specs.Shown.{begins, column_width, counts_in, counts_text, decisions_of};
ghost use Rattle.script_compare.specs.Shown.{in_column, names_of};
ghost use Rattle.script_compare.specs.Shown.{padded, reasons_of, row_text, rows_in, rows_of, rows_text};
ghost use Rattle.script_compare.specs.Shown.{shown_byte, shown_text};
ghost use Rattle.script_compare.specs.Shown.{widest, width, widths_of};

use crate::column::{ChangeColumn, members_at, text_in};
use crate::report::is_nothing;
use itoa::Buffer;
use serde_json::{Map, Value};
use std::alloc::{AllocError, Global};

/// How wide the columns are, but the last, in characters.
#[derive(Clone, Copy)]
pub(crate) struct Widths {
    person: usize,
    action: usize,
    resource: usize,
    before: usize,
    after: usize,
    rules_before: usize,
    rules_after: usize,
}

/// Whether a byte begins a character of UTF-8.
fn begins(byte: u8) -> bool
    ensures { result ≡ begins byte }
{
    !(128 <= byte && byte < 192)
}

/// How many characters a text has.
fn width(text: &[u8]) -> usize
    ensures { result ≡ width text.now }
{
    let mut count = 0;
    for &byte in text {
        if begins(byte) {
            count += 1;
        }
    }
    count
}

/// A byte as it is shown: a control character as a question mark.
fn shown_byte(byte: u8) -> u8
    ensures { result ≡ shown_byte byte }
{
    if byte < 32 || byte == 127 { b'?' } else { byte }
}

/// Puts a text behind others, as it is shown: control characters as question marks.
///
/// # Errors
///
/// `AllocError` if memory runs out.
///
/// Its contract is an equation but for memory.
pub fn push_shown(text: &[u8], out: &mut Vec<u8>) -> Result<(), AllocError>
    ensures { OnOk result (out.new.items ≡ out.old.items ++ map shown_byte text.now) }
{
    for &byte in text {
        out.push(shown_byte(byte))?;
    }
    Ok(())
}

/// Puts so many spaces behind a text.
fn push_spaces(count: usize, out: &mut Vec<u8>) -> Result<(), AllocError>
    ensures { OnOk result (out.new.items ≡ out.old.items ++ replicate count 32) }
{
    for _ in 0..count {
        out.push(b' ')?;
    }
    Ok(())
}

/// Puts a text behind others, with spaces behind it up to so many characters.
#[tactic(auto, unfolding(crate::specs::Shown::padded))]
fn push_padded(wanted: usize, text: &[u8], out: &mut Vec<u8>) -> Result<(), AllocError>
    ensures { OnOk result (out.new.items ≡ out.old.items ++ padded wanted text.now) }
{
    push_shown(text, out)?;
    push_spaces(wanted.saturating_sub(width(text)), out)
}

/// The greatest of a width and those of a column's texts.
fn widest(
    alloc: Global,
    column: ChangeColumn,
    least: usize,
    changes: &[Value],
) -> Result<usize, AllocError>
    ensures { IfOk result (λ n. n ≡ widest column least (map view changes.now)) }
{
    let mut widest = least;
    for change in changes {
        let text = text_in(alloc, column, Some(change))?;
        widest = widest.max(width(text.as_slice()));
    }
    Ok(widest)
}

/// How wide a column is.
fn column_width(
    alloc: Global,
    decisions: &[Value],
    reasons: &[Value],
    column: ChangeColumn,
) -> Result<usize, AllocError>
    ensures { IfOk result (λ n. n ≡ column_width (map view decisions.now) (map view reasons.now) column) }
{
    let title = text_in(alloc, column, None)?;
    let least = width(title.as_slice());
    let least = widest(alloc, column, least, decisions)?;
    widest(alloc, column, least, reasons)
}

/// How wide each column is, but the last.
#[tactic(auto, unfolding(crate::specs::Shown::widths_of))]
fn widths_of(alloc: Global, decisions: &[Value], reasons: &[Value]) -> Result<Widths, AllocError>
    ensures { IfOk result (λ w. w ≡ widths_of (map view decisions.now) (map view reasons.now)) }
{
    Ok(Widths {
        person: column_width(alloc, decisions, reasons, ChangeColumn::Person)?,
        action: column_width(alloc, decisions, reasons, ChangeColumn::Action)?,
        resource: column_width(alloc, decisions, reasons, ChangeColumn::Resource)?,
        before: column_width(alloc, decisions, reasons, ChangeColumn::Before)?,
        after: column_width(alloc, decisions, reasons, ChangeColumn::After)?,
        rules_before: column_width(alloc, decisions, reasons, ChangeColumn::RulesBefore)?,
        rules_after: column_width(alloc, decisions, reasons, ChangeColumn::RulesAfter)?,
    })
}

/// Puts a column of a row behind others, and two spaces.
#[tactic(auto, unfolding(crate::specs::Shown::in_column))]
fn push_column(
    alloc: Global,
    column: ChangeColumn,
    wanted: usize,
    line: Option<&Value>,
    out: &mut Vec<u8>,
) -> Result<(), AllocError>
    ensures { OnOk result (out.new.items
        ≡ out.old.items ++ in_column column wanted (option_map (λ v. view v.now) line.entry)) }
{
    let text = text_in(alloc, column, line)?;
    push_padded(wanted, text.as_slice(), out)?;
    out.extend_from_slice(b"  ")
}

/// Puts the names of a row's request behind others.
#[tactic(auto, unfolding(crate::specs::Shown::names_of))]
fn push_names(
    alloc: Global,
    widths: Widths,
    line: Option<&Value>,
    out: &mut Vec<u8>,
) -> Result<(), AllocError>
    ensures { OnOk result (out.new.items
        ≡ out.old.items ++ names_of widths (option_map (λ v. view v.now) line.entry)) }
{
    push_column(alloc, ChangeColumn::Person, widths.person, line, out)?;
    push_column(alloc, ChangeColumn::Action, widths.action, line, out)?;
    push_column(alloc, ChangeColumn::Resource, widths.resource, line, out)
}

/// Puts both decisions of a row behind others.
#[tactic(auto, unfolding(crate::specs::Shown::decisions_of))]
fn push_decisions(
    alloc: Global,
    widths: Widths,
    line: Option<&Value>,
    out: &mut Vec<u8>,
) -> Result<(), AllocError>
    ensures { OnOk result (out.new.items
        ≡ out.old.items ++ decisions_of widths (option_map (λ v. view v.now) line.entry)) }
{
    push_column(alloc, ChangeColumn::Before, widths.before, line, out)?;
    push_column(alloc, ChangeColumn::After, widths.after, line, out)
}

/// Puts the rules of both decisions of a row behind others, and what else is another.
#[tactic(auto, unfolding(crate::specs::Shown::reasons_of))]
fn push_reasons(
    alloc: Global,
    widths: Widths,
    line: Option<&Value>,
    out: &mut Vec<u8>,
) -> Result<(), AllocError>
    ensures { OnOk result (out.new.items
        ≡ out.old.items ++ reasons_of widths (option_map (λ v. view v.now) line.entry)) }
{
    push_column(
        alloc,
        ChangeColumn::RulesBefore,
        widths.rules_before,
        line,
        out,
    )?;
    push_column(
        alloc,
        ChangeColumn::RulesAfter,
        widths.rules_after,
        line,
        out,
    )?;
    let also = text_in(alloc, ChangeColumn::Also, line)?;
    push_padded(0, also.as_slice(), out)
}

/// Puts a row behind others.
#[tactic(auto, unfolding(crate::specs::Shown::row_text))]
fn push_row(
    alloc: Global,
    widths: Widths,
    line: Option<&Value>,
    out: &mut Vec<u8>,
) -> Result<(), AllocError>
    ensures { OnOk result (out.new.items
        ≡ out.old.items ++ row_text widths (option_map (λ v. view v.now) line.entry)) }
{
    push_names(alloc, widths, line, out)?;
    push_decisions(alloc, widths, line, out)?;
    push_reasons(alloc, widths, line, out)?;
    out.extend_from_slice(b"\n")
}

/// Puts the rows of changes behind others.
fn push_rows(
    alloc: Global,
    widths: Widths,
    changes: &[Value],
    out: &mut Vec<u8>,
) -> Result<(), AllocError>
    ensures { OnOk result (out.new.items ≡ out.old.items ++ rows_text widths (map view changes.now)) }
{
    for change in changes {
        push_row(alloc, widths, Some(change), out)?;
    }
    Ok(())
}

/// Puts the table of changes of decisions and of reasons behind a text.
#[tactic(auto, unfolding(crate::specs::Shown::rows_of))]
fn push_table(
    alloc: Global,
    decisions: &[Value],
    reasons: &[Value],
    out: &mut Vec<u8>,
) -> Result<(), AllocError>
    ensures { OnOk result (out.new.items ≡ out.old.items
        ++ rows_of (widths_of (map view decisions.now) (map view reasons.now))
        (map view decisions.now) (map view reasons.now)) }
{
    let widths = widths_of(alloc, decisions, reasons)?;
    push_row(alloc, widths, None, out)?;
    push_rows(alloc, widths, decisions, out)?;
    push_rows(alloc, widths, reasons, out)
}

/// Puts a line on how many changes there are of a kind behind others.
fn push_count(kind: &str, count: &Value, out: &mut Vec<u8>) -> Result<(), AllocError>
    ensures { OnOk result (out.new.items ≡ out.old.items ++ (kind.now ++ (codes ": "
        ++ (decimal (unwrap_or (option_and_then as_u64 (as_number (view count.now))) 0) ++ codes "\n")))) }
{
    let mut buffer = Buffer::new();
    out.extend_from_slice(kind.as_bytes())?;
    out.extend_from_slice(b": ")?;
    out.extend_from_slice(buffer.format(count.as_u64().unwrap_or(0)).as_bytes())?;
    out.extend_from_slice(b"\n")
}

/// Puts how many changes there are of each kind behind a text.
fn push_counts(counts: &Map<String, Value>, out: &mut Vec<u8>) -> Result<(), AllocError>
    ensures { OnOk result (out.new.items ≡ out.old.items ++ counts_text (members_view counts.now.entries)) }
{
    for (kind, count) in counts.iter() {
        push_count(kind.as_str(), count, out)?;
    }
    Ok(())
}

/// Puts the numbers of changes that are told behind a text.
fn push_counts_in(told: &Value, out: &mut Vec<u8>) -> Result<(), AllocError>
    ensures { OnOk result (out.new.items ≡ out.old.items ++ counts_text (counts_in (view told.now))) }
{
    let Some(counts) = told.get("counts") else {
        return Ok(());
    };
    match counts.as_object() {
        Some(counts) => push_counts(counts, out),
        None => Ok(()),
    }
}

/// Puts the table of the changes that are told behind a text, if there are any.
fn push_rows_in(alloc: Global, told: &Value, out: &mut Vec<u8>) -> Result<(), AllocError>
    ensures { OnOk result (out.new.items ≡ out.old.items ++ rows_in (view told.now)) }
{
    if is_nothing(told) {
        return Ok(());
    }
    out.push(b'\n')?;
    let decisions = members_at(told, "decisions");
    let reasons = members_at(told, "reasons");
    push_table(alloc, decisions, reasons, out)
}

/// What is told of two tables by [`difference`](crate::difference), as a person reads it: how many changes there are of
/// each kind, a line for each, and below an empty line a table with a row for each request: its names, both decisions,
/// the rules that decided before and after, and what else is another of `status`, `obligations` and `advice`. Control
/// characters are shown as question marks.
///
/// # Errors
///
/// `AllocError` if memory runs out.
///
/// Its contract is an equation but for memory.
pub fn shown(alloc: Global, told: &Value) -> Result<Vec<u8>, AllocError>
    ensures { IfOk result (λ v. v.items ≡ shown_text (view told.now)) }
{
    let mut out = Vec::new(alloc);
    push_counts_in(told, &mut out)?;
    push_rows_in(alloc, told, &mut out)?;
    Ok(out)
}
