//! What is told of rules that gave no decision.

ghost use Rattle.std.specs.Prelude.{◌≡◌, ◌++◌, ◌-◌, IfOk, OnOk, length, map};
ghost use Rattle.std.specs.List.{flat_map};
ghost use Rattle.serde_json.specs.View.{view};
ghost use Rattle.script_coverage.specs.Told.{rule_data, rule_text, shown_text, told_data};
ghost use Rattle.script_coverage.specs.proofs_only.Names.{name_view};

use crate::rules::RuleName;
use ent_json::put_text;
use itoa::Buffer;
use script_compare::push_shown;
use serde_json::{Map, Value, put};
use std::alloc::{AllocError, Global};

/// What is told of a rule, as JSON.
fn rule_value(alloc: Global, name: RuleName<'_>) -> Result<Value, AllocError>
    ensures { IfOk result (λ v. view v ≡ rule_data (name_view name.entry)) }
{
    let mut members = Map::new(alloc);
    put_text(alloc, &mut members, "policy", name.policy)?;
    put_text(alloc, &mut members, "rule", name.rule)?;
    put_text(alloc, &mut members, "version", name.version)?;
    Ok(Value::Object(members))
}

/// What is told of rules, as JSON.
fn rule_values(alloc: Global, rules: &[RuleName<'_>]) -> Result<Vec<Value>, AllocError>
    ensures { IfOk result (λ v. map view v.items ≡ map rule_data (map name_view rules.now)) }
{
    let mut values = Vec::new(alloc);
    for name in rules {
        values.push(rule_value(alloc, *name)?)?;
    }
    Ok(values)
}

/// What is told of so many rules, of which these gave no decision, as JSON: an object with `rules`, how many there are,
/// `seen`, how many gave one, and `unseen`, each that gave none, by its policy's id and version and its own id.
///
/// # Errors
///
/// `AllocError` if memory runs out.
///
/// Its contract is an equation but for memory.
pub(crate) fn told(alloc: Global, count: usize, rules: &[RuleName<'_>]) -> Result<Value, AllocError>
    ensures { IfOk result (λ v. view v ≡ told_data count (map name_view rules.now)) }
{
    let seen = count.saturating_sub(rules.len());
    let unseen = rule_values(alloc, rules)?;
    let mut members = Map::new(alloc);
    put(&mut members, alloc, "rules", Value::from(count))?;
    put(&mut members, alloc, "seen", Value::from(seen))?;
    put(&mut members, alloc, "unseen", Value::Array(unseen))?;
    Ok(Value::Object(members))
}

/// Puts the line of a rule behind others.
#[tactic(auto, unfolding(crate::specs::Told::rule_text))]
fn push_rule(name: RuleName<'_>, out: &mut Vec<u8>) -> Result<(), AllocError>
    ensures { OnOk result (out.new.items ≡ out.old.items ++ rule_text (name_view name.entry)) }
{
    push_shown(name.policy.as_bytes(), out)?;
    out.extend_from_slice(b" ")?;
    push_shown(name.version.as_bytes(), out)?;
    out.extend_from_slice(b" > ")?;
    push_shown(name.rule.as_bytes(), out)?;
    out.extend_from_slice(b"\n")
}

/// Puts the lines of rules behind others.
fn push_rule_lines(rules: &[RuleName<'_>], out: &mut Vec<u8>) -> Result<(), AllocError>
    ensures { OnOk result (out.new.items ≡ out.old.items ++ flat_map rule_text (map name_view rules.now)) }
{
    for name in rules {
        push_rule(*name, out)?;
    }
    Ok(())
}

/// What is told of so many rules, of which these gave no decision, as lines: one for each of these, with its policy, and
/// how many gave one.
///
/// # Errors
///
/// `AllocError` if memory runs out.
///
/// Its contract is an equation but for memory.
#[tactic(auto, unfolding(crate::specs::Told::shown_text))]
pub fn shown(alloc: Global, count: usize, rules: &[RuleName<'_>]) -> Result<Vec<u8>, AllocError>
    ensures { IfOk result (λ v. v.items ≡ shown_text count (map name_view rules.now)) }
{
    let mut buffer = Buffer::new();
    let mut out = Vec::new(alloc);
    push_rule_lines(rules, &mut out)?;
    let seen = count.saturating_sub(rules.len());
    out.extend_from_slice(buffer.format(seen).as_bytes())?;
    out.extend_from_slice(b" of ")?;
    out.extend_from_slice(buffer.format(count).as_bytes())?;
    out.extend_from_slice(b" rules gave a decision\n")?;
    Ok(out)
}
