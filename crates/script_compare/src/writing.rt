//! What differs between two tables as Markdown, for those who look a change over.

ghost use Rattle.std.specs.Prelude.{◌≡◌, ◌++◌, IfOk, OnOk, count_by, decimal, drop, map, take};
ghost use Rattle.std.specs.List.{flat_map};
ghost use Rattle.serde_json.specs.View.{view};
ghost use Rattle.script_compare.specs.Gains.{count_others, listed, markdown_text, most, rest_text, summary};
ghost use Rattle.script_compare.specs.proofs_only.Rows.{line_view};

use crate::column::members_at;
use crate::gains::{Way, count_of};
use crate::lines::{PrintedLine, lines_of};
use crate::report::is_nothing;
use itoa::Buffer;
use serde_json::Value;
use std::alloc::{AllocError, Global};

/// How many lines of groups and requests are told at most: with those around them, fifty.
const MOST: usize = 47;

/// Puts a number and words behind others.
fn push_number(number: usize, words: &str, out: &mut Vec<u8>) -> Result<(), AllocError>
    ensures { OnOk result (out.new.items ≡ out.old.items ++ (decimal number ++ words.now)) }
{
    let mut buffer = Buffer::new();
    out.extend_from_slice(buffer.format(number).as_bytes())?;
    out.extend_from_slice(words.as_bytes())
}

/// How many changes neither gain Permit nor lose it.
fn count_others(changes: &[Value]) -> usize
    ensures { result ≡ count_others (map view changes.now) }
{
    let gained = count_of(Way::Gained, changes);
    let lost = count_of(Way::Lost, changes);
    changes.len().saturating_sub(gained).saturating_sub(lost)
}

/// Puts how many changes there are behind others.
#[tactic(auto, unfolding(crate::specs::Gains::summary))]
fn push_summary(decisions: &[Value], reasons: usize, out: &mut Vec<u8>) -> Result<(), AllocError>
    ensures { OnOk result (out.new.items ≡ out.old.items ++ summary (map view decisions.now) reasons) }
{
    push_number(count_of(Way::Gained, decisions), " gain Permit, ", out)?;
    push_number(count_of(Way::Lost, decisions), " lose it, ", out)?;
    push_number(count_others(decisions), " have another decision, ", out)?;
    push_number(reasons, " other reasons.\n\n", out)?;
    Ok(())
}

/// Puts lines behind others.
fn push_lines(lines: &[PrintedLine], out: &mut Vec<u8>) -> Result<(), AllocError>
    ensures { OnOk result (out.new.items
        ≡ out.old.items ++ flat_map (λ line. line.1) (map line_view lines.now)) }
{
    for line in lines {
        out.extend_from_slice(line.text.as_slice())?;
    }
    Ok(())
}

/// How many of some lines are those of requests.
fn requests(lines: &[PrintedLine]) -> usize
    ensures { result ≡ count_by (λ line. line.0) (map line_view lines.now) }
{
    let mut count = 0;
    for line in lines {
        if line.is_request {
            count += 1;
        }
    }
    count
}

/// Puts behind others that so many requests aren't told.
fn push_rest(count: usize, out: &mut Vec<u8>) -> Result<(), AllocError>
    ensures { OnOk result (out.new.items ≡ out.old.items ++ rest_text count) }
{
    if count == 0 {
        return Ok(());
    }
    out.extend_from_slice(b"- and ")?;
    push_number(count, " more requests\n", out)
}

/// The first of some lines, which are told, and the others.
fn cut(lines: &[PrintedLine]) -> (&[PrintedLine], &[PrintedLine])
    ensures told { map line_view result.0.now ≡ take most (map line_view lines.now) }
    ensures others { map line_view result.1.now ≡ drop most (map line_view lines.now) }
{
    let count = MOST.min(lines.len());
    (&lines[..count], &lines[count..])
}

/// Puts the first of some lines behind others, and how many requests stand in those that are left.
fn push_listed(lines: &[PrintedLine], out: &mut Vec<u8>) -> Result<(), AllocError>
    ensures { OnOk result (out.new.items ≡ out.old.items ++ listed (map line_view lines.now)) }
{
    let (told, others) = cut(lines);
    push_lines(told, out)?;
    push_rest(requests(others), out)?;
    Ok(())
}

/// What is told of two tables by [`difference`](crate::difference), as Markdown of at most fifty lines: how many requests
/// gain Permit, lose it, have another decision or other reasons; then those that gain it, and those that lose it, grouped
/// by the rules that permit them, and how many aren't told. Names stand as code, in which control characters are question
/// marks and backticks apostrophes.
///
/// # Errors
///
/// `AllocError` if memory runs out.
///
/// Its contract is an equation but for memory.
pub fn markdown(alloc: Global, told: &Value) -> Result<Vec<u8>, AllocError>
    ensures { IfOk result (λ v. v.items ≡ markdown_text (view told.now)) }
{
    let mut out = Vec::new(alloc);
    if is_nothing(told) {
        out.extend_from_slice(b"Nothing differs.\n")?;
        return Ok(out);
    }
    let decisions = members_at(told, "decisions");
    push_summary(decisions, members_at(told, "reasons").len(), &mut out)?;
    let lines = lines_of(alloc, decisions)?;
    push_listed(lines.as_slice(), &mut out)?;
    Ok(out)
}
