//! The policies of documents.

ghost use Rattle.std.specs.Prelude.{◌≡◌, ◌++◌, OnOk, codes, map};
ghost use Rattle.std.specs.List.{flat_map};
ghost use Rattle.serde_json.specs.Find.{get};
ghost use Rattle.serde_json.specs.View.{view};
ghost use Rattle.script_compare.specs.Shown.{members_at};
ghost use Rattle.script_coverage.specs.Policies.{policies_in, policy_if, set_policies};

use script_compare::members_at;
use serde_json::Value;
use std::alloc::AllocError;

/// Puts the policy that a document or a child of a set is behind others, if it is one.
fn push_policy<'v>(child: &'v Value, policies: &mut Vec<&'v Value>) -> Result<(), AllocError>
    ensures { OnOk result (map (λ v. view v.now) policies.new.items
        ≡ map (λ v. view v.now) policies.old.items ++ policy_if (get (codes "Policy") (view child.now))) }
{
    if let Some(policy) = child.get("Policy") {
        policies.push(policy)?;
    }
    Ok(())
}

/// Puts the policies of a document or of a child of a set behind others, looked into so many levels deep.
///
/// # Errors
///
/// `AllocError` if memory runs out.
///
/// Its contract is an equation but for memory.
#[cycle(policies)]
pub(crate) fn push_policies<'v>(
    levels: usize,
    child: &'v Value,
    policies: &mut Vec<&'v Value>,
) -> Result<(), AllocError>
    ensures { OnOk result (map (λ v. view v.now) policies.new.items
        ≡ map (λ v. view v.now) policies.old.items ++ policies_in levels (view child.now)) }
{
    if levels == 0 {
        return Ok(());
    }
    push_policy(child, policies)?;
    push_set(levels - 1, child, policies)?;
    Ok(())
}

/// Puts those of the set that a child is behind others, if it is one, its children looked into so many levels deep.
#[cycle(policies)]
fn push_set<'v>(
    levels: usize,
    child: &'v Value,
    policies: &mut Vec<&'v Value>,
) -> Result<(), AllocError>
    ensures { OnOk result (map (λ v. view v.now) policies.new.items
        ≡ map (λ v. view v.now) policies.old.items
        ++ set_policies (policies_in levels) (get (codes "PolicySet") (view child.now))) }
{
    match child.get("PolicySet") {
        Some(set) => push_each(levels, members_at(set, "Children"), policies),
        None => Ok(()),
    }
}

/// The same of each of some children.
#[cycle(policies)]
fn push_each<'v>(
    levels: usize,
    children: &'v [Value],
    policies: &mut Vec<&'v Value>,
) -> Result<(), AllocError>
    ensures { OnOk result (map (λ v. view v.now) policies.new.items
        ≡ map (λ v. view v.now) policies.old.items ++ flat_map (policies_in levels) (map view children.now)) }
{
    for child in children {
        push_policies(levels, child, policies)?;
    }
    Ok(())
}
