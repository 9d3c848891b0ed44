//! Lines of Markdown on the requests that gain Permit or lose it.

ghost use Rattle.std.specs.Prelude.{◌≡◌, ◌++◌, ◌∷◌, [], IfOk, OnOk, bytes_eq, codes, decimal, false, map};
ghost use Rattle.std.specs.List.{flat_map};
ghost use Rattle.serde_json.specs.View.{view};
ghost use Rattle.script_compare.specs.Gains.{code, code_byte, group_lines, group_text, groups_of, lines_of, member_if};
ghost use Rattle.script_compare.specs.Gains.{members_of, request_text, rows_of, way_text};
ghost use Rattle.script_compare.specs.proofs_only.Rows.{line_view, row_view};

use crate::column::name_at;
use crate::gains::{GainRow, Way, push_firsts, rows_of};
use crate::report::kind_of;
use itoa::Buffer;
use serde_json::Value;
use std::alloc::{AllocError, Global};

/// A line.
#[derive(Drop)]
pub(crate) struct PrintedLine {
    /// Whether it is a request's.
    pub(crate) is_request: bool,
    /// What it says, with its newline.
    pub(crate) text: Vec<u8>,
}

/// A byte as code is written in Markdown: no control character, and no backtick, which would end it.
fn code_byte(byte: u8) -> u8
    ensures { result ≡ code_byte byte }
{
    if byte < 32 || byte == 127 {
        b'?'
    } else if byte == b'`' {
        b'\''
    } else {
        byte
    }
}

/// Puts the bytes of a text behind others, as code has them.
fn push_coded(text: &[u8], out: &mut Vec<u8>) -> Result<(), AllocError>
    ensures { OnOk result (out.new.items ≡ out.old.items ++ map code_byte text.now) }
{
    for &byte in text {
        out.push(code_byte(byte))?;
    }
    Ok(())
}

/// Puts a text behind others, as code, in which nothing is markup.
fn push_code(text: &[u8], out: &mut Vec<u8>) -> Result<(), AllocError>
    ensures { OnOk result (out.new.items ≡ out.old.items ++ code text.now) }
{
    out.push(b'`')?;
    push_coded(text, out)?;
    out.push(b'`')?;
    Ok(())
}

/// The words before the rules of a group.
fn way_text(way: Way) -> &'static str
    ensures { result.now ≡ way_text way }
{
    match way {
        Way::Gained => "- **gained** by ",
        Way::Lost => "- **lost** from ",
    }
}

/// The line of a request.
#[tactic(auto, unfolding(crate::specs::Gains::request_text))]
pub(crate) fn request_text(alloc: Global, change: &Value) -> Result<Vec<u8>, AllocError>
    ensures { IfOk result (λ v. v.items ≡ request_text (view change.now)) }
{
    let kind = kind_of(alloc, change)?;
    let mut out = Vec::new(alloc);
    out.extend_from_slice(b"  - ")?;
    push_code(name_at(change, "person").as_bytes(), &mut out)?;
    out.extend_from_slice(b" ")?;
    push_code(name_at(change, "action").as_bytes(), &mut out)?;
    out.extend_from_slice(b" ")?;
    push_code(name_at(change, "resource").as_bytes(), &mut out)?;
    out.extend_from_slice(b": ")?;
    out.extend_from_slice(kind.as_bytes())?;
    out.extend_from_slice(b"\n")?;
    Ok(out)
}

/// The line of a group: by which rules so many are permitted.
#[tactic(auto, unfolding(crate::specs::Gains::group_text))]
fn group_text(alloc: Global, way: Way, rules: &[u8], count: usize) -> Result<Vec<u8>, AllocError>
    ensures { IfOk result (λ v. v.items ≡ group_text way rules.now count) }
{
    let mut buffer = Buffer::new();
    let mut out = Vec::new(alloc);
    out.extend_from_slice(way_text(way).as_bytes())?;
    push_code(rules, &mut out)?;
    out.extend_from_slice(b": ")?;
    out.extend_from_slice(buffer.format(count).as_bytes())?;
    out.extend_from_slice(b"\n")?;
    Ok(out)
}

/// How many of the rows these rules permit.
fn members_of(rules: &[u8], rows: &[GainRow]) -> usize
    ensures { result ≡ members_of rules.now (map row_view rows.now) }
{
    let mut count = 0;
    for row in rows {
        if rules == row.rules.as_slice() {
            count += 1;
        }
    }
    count
}

/// Puts the line of a row behind others, if these rules permit it.
fn push_member(
    alloc: Global,
    rules: &[u8],
    row: &GainRow,
    lines: &mut Vec<PrintedLine>,
) -> Result<(), AllocError>
    ensures { OnOk result (map line_view lines.new.items
        ≡ map line_view lines.old.items ++ member_if rules.now (row_view row.now)) }
{
    if rules != row.rules.as_slice() {
        return Ok(());
    }
    lines.push(PrintedLine {
        is_request: true,
        text: Vec::from_slice(alloc, row.text.as_slice())?,
    })?;
    Ok(())
}

/// Puts the lines of those rows behind others that these rules permit.
fn push_members(
    alloc: Global,
    rules: &[u8],
    rows: &[GainRow],
    lines: &mut Vec<PrintedLine>,
) -> Result<(), AllocError>
    ensures { OnOk result (map line_view lines.new.items
        ≡ map line_view lines.old.items ++ flat_map (member_if rules.now) (map row_view rows.now)) }
{
    for row in rows {
        push_member(alloc, rules, row, lines)?;
    }
    Ok(())
}

/// Puts the lines of a group behind others.
fn push_group(
    alloc: Global,
    way: Way,
    rows: &[GainRow],
    rules: &[u8],
    lines: &mut Vec<PrintedLine>,
) -> Result<(), AllocError>
    ensures { OnOk result (map line_view lines.new.items
        ≡ map line_view lines.old.items ++ group_lines way (map row_view rows.now) rules.now) }
{
    lines.push(PrintedLine {
        is_request: false,
        text: group_text(alloc, way, rules, members_of(rules, rows))?,
    })?;
    push_members(alloc, rules, rows, lines)
}

/// Puts the lines of groups behind others.
fn push_groups(
    alloc: Global,
    way: Way,
    rows: &[GainRow],
    groups: &[Vec<u8>],
    lines: &mut Vec<PrintedLine>,
) -> Result<(), AllocError>
    ensures { OnOk result (map line_view lines.new.items ≡ map line_view lines.old.items
        ++ flat_map (group_lines way (map row_view rows.now)) (map (λ v. v.items) groups.now)) }
{
    for rules in groups {
        push_group(alloc, way, rows, rules.as_slice(), lines)?;
    }
    Ok(())
}

/// Puts the lines of what some changes gain, or lose, behind others.
fn push_way(
    alloc: Global,
    way: Way,
    changes: &[Value],
    lines: &mut Vec<PrintedLine>,
) -> Result<(), AllocError>
    ensures { OnOk result (map line_view lines.new.items ≡ map line_view lines.old.items
        ++ groups_of way (rows_of way (map view changes.now))) }
{
    let rows = rows_of(alloc, way, changes)?;
    let mut groups = Vec::new(alloc);
    push_firsts(alloc, rows.as_slice(), &mut groups)?;
    push_groups(alloc, way, rows.as_slice(), groups.as_slice(), lines)
}

/// The lines of what some changes gain, and then of what they lose.
pub(crate) fn lines_of(alloc: Global, changes: &[Value]) -> Result<Vec<PrintedLine>, AllocError>
    ensures { IfOk result (λ lines. map line_view lines.items ≡ lines_of (map view changes.now)) }
{
    let mut lines = Vec::new(alloc);
    push_way(alloc, Way::Gained, changes, &mut lines)?;
    push_way(alloc, Way::Lost, changes, &mut lines)?;
    Ok(lines)
}
