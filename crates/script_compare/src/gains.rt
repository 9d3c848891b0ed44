//! Which requests gain Permit, and which lose it.

ghost use Rattle.std.specs.Prelude.{◌≡◌, ◌++◌, IfOk, OnOk, map, option_map};
ghost use Rattle.serde_json.specs.View.{view};
ghost use Rattle.script_compare.specs.Gains.{count_of, firsts, has, is_of, permitted, row_if, rows_of, with_first};
ghost use Rattle.script_compare.specs.proofs_only.Rows.{row_view};
ghost use Rattle.std.specs.List.{list_any};
ghost use Rattle.std.specs.Prelude.{bytes_eq};

use crate::changes::decision_of;
use crate::column::{members_at, rules_of};
use crate::lines::request_text;
use serde_json::Value;
use std::alloc::{AllocError, Global};

/// Which way a request goes whose decision is another.
#[derive(Clone, Copy, Debug, PartialEq, Eq)]
pub enum Way {
    /// It is permitted, and wasn't.
    Gained,
    /// It was permitted, and isn't.
    Lost,
}

/// Of a request the rules that permit it, and its line.
#[derive(Drop)]
pub(crate) struct GainRow {
    pub(crate) rules: Vec<u8>,
    pub(crate) text: Vec<u8>,
}

/// The cell of a change that is permitted where Permit is gained or lost.
fn permitted(way: Way, change: &Value) -> Option<&Value>
    ensures { option_map (λ v. view v.now) result ≡ permitted way (view change.now) }
{
    match way {
        Way::Gained => change.get("after"),
        Way::Lost => change.get("before"),
    }
}

/// Whether a request whose decision is another gains Permit, or loses it.
fn is_of(way: Way, change: &Value) -> bool
    ensures { result ≡ is_of way (view change.now) }
{
    decision_of(permitted(way, change)) == "Permit"
}

/// How many of some changes gain it, or lose it.
pub(crate) fn count_of(way: Way, changes: &[Value]) -> usize
    ensures { result ≡ count_of way (map view changes.now) }
{
    let mut count = 0;
    for change in changes {
        if is_of(way, change) {
            count += 1;
        }
    }
    count
}

/// Whether a request gains Permit, or loses it, by what is told of two tables.
///
/// Its contract is an equation.
pub fn has(way: Way, told: &Value) -> bool
    ensures { result ≡ has way (view told.now) }
{
    let changes = members_at(told, "decisions");
    for change in changes {
        if is_of(way, change) {
            return true;
        }
    }
    false
}

/// Puts the row of a change behind others, if it is one of those.
fn push_row(
    alloc: Global,
    way: Way,
    change: &Value,
    rows: &mut Vec<GainRow>,
) -> Result<(), AllocError>
    ensures { OnOk result (map row_view rows.new.items ≡ map row_view rows.old.items ++ row_if way (view change.now)) }
{
    if !is_of(way, change) {
        return Ok(());
    }
    let rules = rules_of(alloc, permitted(way, change))?;
    let text = request_text(alloc, change)?;
    rows.push(GainRow { rules, text })?;
    Ok(())
}

/// The rows of some changes.
pub(crate) fn rows_of(
    alloc: Global,
    way: Way,
    changes: &[Value],
) -> Result<Vec<GainRow>, AllocError>
    ensures { IfOk result (λ rows. map row_view rows.items ≡ rows_of way (map view changes.now)) }
{
    let mut rows = Vec::new(alloc);
    for change in changes {
        push_row(alloc, way, change, &mut rows)?;
    }
    Ok(rows)
}

/// Whether rules stand among others.
fn is_among(rules: &[u8], seen: &[Vec<u8>]) -> bool
    ensures { result ≡ list_any (bytes_eq rules.now) (map (λ v. v.items) seen.now) }
{
    for others in seen {
        if rules == others.as_slice() {
            return true;
        }
    }
    false
}

/// Puts rules behind others, unless they stand there.
fn push_first(alloc: Global, rules: &[u8], seen: &mut Vec<Vec<u8>>) -> Result<(), AllocError>
    ensures { OnOk result (map (λ v. v.items) seen.new.items
        ≡ with_first (map (λ v. v.items) seen.old.items) rules.now) }
{
    if is_among(rules, seen.as_slice()) {
        return Ok(());
    }
    seen.push(Vec::from_slice(alloc, rules)?)?;
    Ok(())
}

/// Puts the rules of rows behind others, each once, in the order in which they come first.
pub(crate) fn push_firsts(
    alloc: Global,
    rows: &[GainRow],
    seen: &mut Vec<Vec<u8>>,
) -> Result<(), AllocError>
    ensures { OnOk result (map (λ v. v.items) seen.new.items
        ≡ firsts (map (λ v. v.items) seen.old.items) (map row_view rows.now)) }
{
    for row in rows {
        push_first(alloc, row.rules.as_slice(), seen)?;
    }
    Ok(())
}
