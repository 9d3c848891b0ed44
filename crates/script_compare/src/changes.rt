//! The changes from one table to another.

ghost use Rattle.std.specs.Prelude.{◌≡◌, [], ◌++◌, ◌∷◌, None, Some, IfOk, OnOk, codes, map, option_map};
ghost use Rattle.serde_json.specs.Data.{no_members};
ghost use Rattle.serde_json.specs.View.{members_view, view};
ghost use Rattle.script_compare.specs.Changes.{appeared, appeared_at, change, decided, decided_at, decision_of, or_null};
ghost use Rattle.script_compare.specs.Changes.{reasoned, reasoned_at, same_decision};

use ent_json::text_at;
use script_matching::have_same_data;
use serde_json::{Map, Value, put};
use std::alloc::{AllocError, Global};

/// What is told in place of a decision where there is none.
const NONE: &str = "none";

/// The decision of a cell, if there is one.
pub(crate) fn decision_of<'v>(cell: Option<&'v Value>) -> &'v str
    ensures { result.now ≡ decision_of (option_map (λ v. view v.now) cell.entry) }
{
    match cell {
        Some(cell) => text_at(cell, "decision").unwrap_or(NONE),
        None => NONE,
    }
}

/// Whether two cells, of which one may be absent, have the same decision.
fn same_decision(before: Option<&Value>, after: Option<&Value>) -> bool
    ensures { result
        ≡ same_decision (option_map (λ v. view v.now) before.entry) (option_map (λ v. view v.now) after.entry) }
{
    decision_of(before) == decision_of(after)
}

/// A copy of a cell, or null where there is none.
fn or_null(cell: Option<&Value>) -> Result<Value, AllocError>
    ensures { IfOk result (λ v. view v ≡ or_null (option_map (λ v. view v.now) cell.entry)) }
{
    match cell {
        Some(cell) => cell.clone(),
        None => Ok(Value::Null),
    }
}

/// A change as it is told: both cells.
fn change(alloc: Global, before: Option<&Value>, after: Option<&Value>) -> Result<Value, AllocError>
    ensures { IfOk result (λ v. view v
        ≡ change (option_map (λ v. view v.now) before.entry) (option_map (λ v. view v.now) after.entry)) }
{
    let mut members = Map::new(alloc);
    put(&mut members, alloc, "before", or_null(before)?)?;
    put(&mut members, alloc, "after", or_null(after)?)?;
    Ok(Value::Object(members))
}

/// Puts the change of a cell and what stands in another table at its request behind others: behind those of decisions
/// if the decision is another, and else behind those of reasons if anything else is.
fn push_change(
    alloc: Global,
    cell: &Value,
    after: Option<&Value>,
    decisions: &mut Vec<Value>,
    reasons: &mut Vec<Value>,
) -> Result<(), AllocError>
    ensures decisions { OnOk result (map view decisions.new.items
        ≡ map view decisions.old.items ++ decided_at (view cell.now) (option_map (λ v. view v.now) after.entry)) }
    ensures reasons { OnOk result (map view reasons.new.items
        ≡ map view reasons.old.items ++ reasoned_at (view cell.now) (option_map (λ v. view v.now) after.entry)) }
{
    if !same_decision(Some(cell), after) {
        decisions.push(change(alloc, Some(cell), after)?)?;
        return Ok(());
    }
    let Some(after) = after else {
        return Ok(());
    };
    if !have_same_data(cell, after) {
        reasons.push(change(alloc, Some(cell), Some(after))?)?;
    }
    Ok(())
}

/// Puts a cell behind others where another table has none at its request.
fn push_appeared(
    alloc: Global,
    before: Option<&Value>,
    cell: &Value,
    changes: &mut Vec<Value>,
) -> Result<(), AllocError>
    ensures { OnOk result (map view changes.new.items
        ≡ map view changes.old.items ++ appeared_at (option_map (λ v. view v.now) before.entry) (view cell.now)) }
{
    if before.is_none() {
        changes.push(change(alloc, None, Some(cell))?)?;
    }
    Ok(())
}

/// Puts the changes of the cells of a table behind others: of those whose requests have another decision in a second
/// one, or no cell, and of those whose requests have the same decision there and other reasons.
pub(crate) fn changed(
    alloc: Global,
    before: &Map<String, Value>,
    after: &Value,
    decisions: &mut Vec<Value>,
    reasons: &mut Vec<Value>,
) -> Result<(), AllocError>
    ensures decisions { OnOk result (map view decisions.new.items
        ≡ map view decisions.old.items ++ decided (members_view before.now.entries) (view after.now)) }
    ensures reasons { OnOk result (map view reasons.new.items
        ≡ map view reasons.old.items ++ reasoned (members_view before.now.entries) (view after.now)) }
{
    for (request, cell) in before.iter() {
        let other = after.get(request.as_str());
        push_change(alloc, cell, other, decisions, reasons)?;
    }
    Ok(())
}

/// Puts the changes of the cells of a table at whose requests a first one has none behind others.
pub(crate) fn appeared(
    alloc: Global,
    before: &Value,
    after: &Map<String, Value>,
    changes: &mut Vec<Value>,
) -> Result<(), AllocError>
    ensures { OnOk result (map view changes.new.items
        ≡ map view changes.old.items ++ appeared (view before.now) (members_view after.now.entries)) }
{
    for (request, cell) in after.iter() {
        push_appeared(alloc, before.get(request.as_str()), cell, changes)?;
    }
    Ok(())
}
