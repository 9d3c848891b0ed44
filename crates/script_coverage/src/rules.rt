//! The rules of policies, and those of them that gave no decision.

ghost use Rattle.std.specs.Prelude.{◌≡◌, ◌++◌, IfOk, OnOk, map};
ghost use Rattle.std.specs.List.{flat_map};
ghost use Rattle.serde_json.specs.View.{members_view, view};
ghost use Rattle.script_coverage.specs.Told.{if_unseen, is_seen, name_of, rules_of, text_or, unseen};
ghost use Rattle.script_coverage.specs.proofs_only.Names.{name_view};

use ent_json::text_at;
use script_compare::{members_at, names_text};
use serde_json::{Map, Value};
use std::alloc::{AllocError, Global};

/// A rule of a policy.
#[derive(Clone, Copy, Debug, PartialEq, Eq)]
pub struct RuleName<'v> {
    /// The policy's id.
    pub policy: &'v str,
    /// Its version.
    pub version: &'v str,
    /// The rule's id.
    pub rule: &'v str,
}

/// The text at a key, or none.
fn text_or<'v>(object: &'v Value, key: &str) -> &'v str
    ensures { result.now ≡ text_or key.now (view object.now) }
{
    text_at(object, key).unwrap_or("")
}

/// The name of a rule of a policy.
fn name_of<'v>(policy: &'v Value, rule: &'v Value) -> RuleName<'v>
    ensures { name_view result ≡ name_of (view policy.now) (view rule.now) }
{
    RuleName {
        policy: text_or(policy, "PolicyId"),
        version: text_or(policy, "Version"),
        rule: text_or(rule, "RuleId"),
    }
}

/// Puts the rules of a policy behind others, in the order of the document.
///
/// # Errors
///
/// `AllocError` if memory runs out.
///
/// Its contract is an equation but for memory.
pub(crate) fn push_rules<'v>(
    policy: &'v Value,
    rules: &mut Vec<RuleName<'v>>,
) -> Result<(), AllocError>
    ensures { OnOk result (map name_view rules.new.items
        ≡ map name_view rules.old.items ++ rules_of (view policy.now)) }
{
    let members = members_at(policy, "Rule");
    for rule in members {
        rules.push(name_of(policy, rule))?;
    }
    Ok(())
}

/// Whether a rule gave a decision.
fn is_seen(alloc: Global, seen: &Map<String, Value>, name: RuleName<'_>) -> Result<bool, AllocError>
    ensures { IfOk result (λ b. b ≡ is_seen (members_view seen.now.entries) (name_view name.entry)) }
{
    let key = names_text(alloc, name.policy, name.version, name.rule)?;
    Ok(seen.get(key.as_str()).is_some())
}

/// Puts a rule behind others, unless it gave a decision.
fn push_unseen<'v>(
    alloc: Global,
    seen: &Map<String, Value>,
    name: RuleName<'v>,
    rules: &mut Vec<RuleName<'v>>,
) -> Result<(), AllocError>
    ensures { OnOk result (map name_view rules.new.items
        ≡ map name_view rules.old.items ++ if_unseen (members_view seen.now.entries) (name_view name.entry)) }
{
    if is_seen(alloc, seen, name)? {
        return Ok(());
    }
    rules.push(name)?;
    Ok(())
}

/// Those of some rules that gave no decision, by the rules that did ([`see_reply`](crate::see_reply)).
///
/// # Errors
///
/// `AllocError` if memory runs out.
///
/// Its contract is an equation but for memory.
pub fn unseen<'v>(
    alloc: Global,
    seen: &Map<String, Value>,
    rules: &[RuleName<'v>],
) -> Result<Vec<RuleName<'v>>, AllocError>
    ensures { IfOk result (λ v. map name_view v.items
        ≡ unseen (members_view seen.now.entries) (map name_view rules.now)) }
{
    let mut found = Vec::new(alloc);
    for name in rules {
        push_unseen(alloc, seen, *name, &mut found)?;
    }
    Ok(found)
}
