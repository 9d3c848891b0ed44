//! What is told of the changes from one table to another.

ghost use Rattle.std.specs.Prelude.{◌≡◌, [], ◌++◌, ◌+◌, ◌-◌, ◌^◌, IfOk, OnOk, codes, map, min};
ghost use Rattle.std.specs.Prelude.{option_map, string_bytes};
ghost use Rattle.serde_json.specs.Data.{Members, no_members, number, object, put, unsigned};
ghost use Rattle.serde_json.specs.Find.{get_member};
ghost use Rattle.serde_json.specs.View.{members_view, view};
ghost use Rattle.script_compare.specs.Changes.{count_at, counted, difference, difference_of, is_nothing, kind_of, none_at};
ghost use Rattle.script_compare.specs.Changes.{raised, told};

use crate::changes::{appeared, changed, decision_of};
use crate::table::read_table;
use ent_json::filled_list_at;
use serde_json::{Map, Value, put};
use std::alloc::{AllocError, Global};

/// The kind of a change: both decisions.
pub(crate) fn kind_of(alloc: Global, change: &Value) -> Result<String, AllocError>
    ensures { IfOk result (λ s. string_bytes s ≡ kind_of (view change.now)) }
{
    let before = decision_of(change.get("before"));
    let after = decision_of(change.get("after"));
    format!(in alloc; "{before} to {after}")
}

/// What stands at a key.
fn member<'m>(members: &'m Map<String, Value>, key: &str) -> Option<&'m Value>
    ensures { option_map (λ v. view v.now) result ≡ get_member key.now (members_view members.now.entries) }
{
    members.get(key)
}

/// How many stand at a key.
fn count_at(key: &str, counts: &Map<String, Value>) -> u64
    ensures { result ≡ count_at key.now (members_view counts.now.entries) }
{
    match member(counts, key) {
        Some(count) => count.as_u64().unwrap_or(0),
        None => 0,
    }
}

/// One more at a key.
fn raise(alloc: Global, key: &str, counts: &mut Map<String, Value>) -> Result<(), AllocError>
    ensures { OnOk result (members_view counts.new.entries ≡ raised key.now (members_view counts.old.entries)) }
{
    let count = count_at(key, counts).saturating_add(1);
    put(counts, alloc, key, Value::from(count))
}

/// Counts changes of each kind, beside others.
fn count(
    alloc: Global,
    changes: &[Value],
    counts: &mut Map<String, Value>,
) -> Result<(), AllocError>
    ensures { OnOk result (members_view counts.new.entries
        ≡ counted (map view changes.now) (members_view counts.old.entries)) }
{
    for change in changes {
        let kind = kind_of(alloc, change)?;
        raise(alloc, kind.as_str(), counts)?;
    }
    Ok(())
}

/// How many changes there are: of each kind that another decision is, and how many reasons.
fn counts(alloc: Global, decisions: &[Value], reasons: usize) -> Result<Value, AllocError>
    ensures { IfOk result (λ v. view v ≡ object (counted (map view decisions.now)
        (put (codes "reasons") (number (unsigned reasons)) no_members))) }
{
    let mut counts = Map::new(alloc);
    put(&mut counts, alloc, "reasons", Value::from(reasons))?;
    count(alloc, decisions, &mut counts)?;
    Ok(Value::Object(counts))
}

/// What is told of changes of decisions and of reasons: how many of each kind, and each.
fn told(alloc: Global, decisions: Vec<Value>, reasons: Vec<Value>) -> Result<Value, AllocError>
    ensures { IfOk result (λ v. view v ≡ told (map view decisions.items) (map view reasons.items)) }
{
    let counts = counts(alloc, decisions.as_slice(), reasons.len())?;
    let mut members = Map::new(alloc);
    put(&mut members, alloc, "counts", counts)?;
    put(&mut members, alloc, "decisions", Value::Array(decisions))?;
    put(&mut members, alloc, "reasons", Value::Array(reasons))?;
    Ok(Value::Object(members))
}

/// What is told of two tables.
fn between(alloc: Global, before: &Value, after: &Value) -> Result<Value, AllocError>
    ensures { IfOk result (λ v. (m n : Members) → view before.now ≡ object m → view after.now ≡ object n
        → view v ≡ difference m n) }
{
    let mut decisions = Vec::new(alloc);
    let mut reasons = Vec::new(alloc);
    if let (Some(first), Some(second)) = (before.as_object(), after.as_object()) {
        changed(alloc, first, after, &mut decisions, &mut reasons)?;
        appeared(alloc, before, second, &mut decisions)?;
    }
    told(alloc, decisions, reasons)
}

/// Whether nothing stands in the list at a key.
fn none_at(key: &str, told: &Value) -> bool
    ensures { result ≡ none_at key.now (view told.now) }
{
    filled_list_at(told, key).is_none()
}

/// Whether what is told of two tables is that nothing differs.
///
/// Its contract is an equation.
pub fn is_nothing(told: &Value) -> bool
    ensures { result ≡ is_nothing (view told.now) }
{
    none_at("decisions", told) && none_at("reasons", told)
}

/// What differs between the tables of two replies to `table`, if both are such replies: an object with `counts`, how
/// many changes there are of each kind (`Permit to Deny` and so on, with `none` where a table has no such request, and
/// `reasons`), with `decisions`, a list of each request whose decision is another, and with `reasons`, of each whose
/// decision is the same and anything else another. Each is an object with both cells, `before` and `after`, of which
/// one may be null. The requests of the first table come first, each list of them in the order of their names' texts.
///
/// # Errors
///
/// `AllocError` if memory runs out.
///
/// Its contract is an equation but for memory.
pub fn difference(alloc: Global, before: &[u8], after: &[u8]) -> Result<Option<Value>, AllocError>
    ensures { IfOk result (λ o. option_map view o ≡ difference_of before.now after.now) }
{
    let Some(first) = read_table(alloc, before)? else {
        return Ok(None);
    };
    let Some(second) = read_table(alloc, after)? else {
        return Ok(None);
    };
    let told = between(alloc, &Value::Object(first), &Value::Object(second))?;
    Ok(Some(told))
}
