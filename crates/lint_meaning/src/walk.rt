//! The way through a document, for what may not be meant.

ghost use Rattle.std.specs.Prelude.{◌≡◌, ◌≤◌, ◌++◌, IfOk, OnOk, codes, length, map, not};
ghost use Rattle.lint_meaning.specs.Copies.{overruling};
ghost use Rattle.std.specs.List.{fold};
ghost use Rattle.lint_meaning.specs.Effects.{either, may_give};
ghost use Rattle.lint_meaning.specs.Names.{named};
ghost use Rattle.lint_meaning.specs.Places.{member, numbered, told_if, told_of};
ghost use Rattle.lint_meaning.specs.Warnings.{assignment_told, definition_told, given_expression_told, given_told};
ghost use Rattle.lint_meaning.specs.Warnings.{policy_told, rule_told, rules_told, seen, warnings_of};
ghost use Rattle.lint_meaning.specs.declared.warning.Meaning.TheVariants as meaning;
ghost use Rattle.lint_meaning.specs.proofs_only.Views.{seen_set};
ghost use Rattle.ent_policy.specs.Limits.{is_among};
ghost use Rattle.ent_policy.specs.proofs_only.Order.{has_id};

use crate::copies::overruling;
use crate::effects::{Effects, policy_effects, set_unless};
use crate::inside::{tell_condition, tell_inside};
use crate::names::names_of;
use crate::places::{at_key, member, put};
use crate::targets::tell_target;
use crate::warning::{Meaning, Warning};
use ent_policy::{
    AssignmentExpression, Child, Document, GivenExpression, GivenExpressions, Policy, PolicySet,
    Rule, Tree, VariableDefinition,
};
use ent_values::Items;
use std::alloc::{AllocError, Global};
use std::collections::BTreeSet;

/// Puts what is told of the assignments of the obligation or the advice at a place last.
fn tell_assignments(
    alloc: Global,
    pointer: &str,
    assignments: &[AssignmentExpression],
    warnings: &mut Items<Warning>,
) -> Result<(), AllocError>
    ensures { OnOk result (warnings.new ≡ warnings.old ++ numbered (codes "AttributeAssignmentExpression") 0
        (map assignment_told assignments.now) pointer.now) }
{
    for (number, assignment) in assignments.iter().enumerate() {
        let place = member(alloc, pointer, "AttributeAssignmentExpression", number)?;
        let place = at_key(alloc, place.as_str(), "Expression")?;
        tell_inside(alloc, place.as_str(), &assignment.expression, warnings)?;
    }
    Ok(())
}

/// Puts that an obligation or an advice is for an effect that never comes last, if it is.
fn tell_never(
    alloc: Global,
    pointer: &str,
    effects: Effects,
    given: &GivenExpression,
    warnings: &mut Items<Warning>,
) -> Result<(), AllocError>
    ensures { OnOk result (warnings.new ≡ warnings.old
        ++ told_if (not (may_give effects given.now.effect)) (meaning.Never given.now.effect) pointer.now) }
{
    if effects.may_give(given.effect) {
        return Ok(());
    }
    put(alloc, pointer, Meaning::Never(given.effect), warnings)
}

/// Puts what is told of the obligations or the advice at a key last, of what gives these effects alone.
fn tell_given_at(
    alloc: Global,
    pointer: &str,
    key: &str,
    effects: Effects,
    given: &[GivenExpression],
    warnings: &mut Items<Warning>,
) -> Result<(), AllocError>
    ensures { OnOk result (warnings.new ≡ warnings.old
        ++ numbered key.now 0 (map (given_expression_told effects) given.now) pointer.now) }
{
    for (number, one) in given.iter().enumerate() {
        let place = member(alloc, pointer, key, number)?;
        tell_never(alloc, place.as_str(), effects, one, warnings)?;
        tell_assignments(alloc, place.as_str(), one.assignments.as_slice(), warnings)?;
    }
    Ok(())
}

/// Puts what is told of obligations and advice last.
fn tell_given(
    alloc: Global,
    pointer: &str,
    effects: Effects,
    given: &GivenExpressions,
    warnings: &mut Items<Warning>,
) -> Result<(), AllocError>
    ensures { OnOk result (warnings.new ≡ warnings.old ++ given_told effects given.now pointer.now) }
{
    let (obligations, advice) = (given.obligations.as_slice(), given.advice.as_slice());
    tell_given_at(
        alloc,
        pointer,
        "ObligationExpressions",
        effects,
        obligations,
        warnings,
    )?;
    tell_given_at(
        alloc,
        pointer,
        "AdviceExpressions",
        effects,
        advice,
        warnings,
    )
}

/// Puts that no expression names a variable last, if none does.
fn tell_unused(
    alloc: Global,
    pointer: &str,
    names: &BTreeSet<&str>,
    definition: &VariableDefinition,
    warnings: &mut Items<Warning>,
) -> Result<(), AllocError>
    ensures { OnOk result (warnings.new ≡ warnings.old
        ++ told_if (not (has_id names.now definition.now.id)) meaning.Unused pointer.now) }
{
    if names.contains(definition.id.as_str()) {
        return Ok(());
    }
    put(alloc, pointer, Meaning::Unused, warnings)
}

/// Puts what is told of definitions last, by the names that stand in their policy.
fn tell_each_definition(
    alloc: Global,
    pointer: &str,
    names: &BTreeSet<&str>,
    definitions: &[VariableDefinition],
    warnings: &mut Items<Warning>,
) -> Result<(), AllocError>
    ensures { OnOk result (warnings.new ≡ warnings.old ++ numbered (codes "VariableDefinition") 0
        (map (definition_told (has_id names.now)) definitions.now) pointer.now) }
{
    for (number, definition) in definitions.iter().enumerate() {
        let place = member(alloc, pointer, "VariableDefinition", number)?;
        tell_unused(alloc, place.as_str(), names, definition, warnings)?;
        let inner = at_key(alloc, place.as_str(), "Expression")?;
        tell_inside(alloc, inner.as_str(), &definition.expression, warnings)?;
    }
    Ok(())
}

/// Puts what is told of the definitions of the policy at a place last.
fn tell_definitions(
    alloc: Global,
    pointer: &str,
    policy: &Policy,
    warnings: &mut Items<Warning>,
) -> Result<(), AllocError>
    ensures { OnOk result (warnings.new ≡ warnings.old ++ numbered (codes "VariableDefinition") 0
        (map (definition_told (is_among (named policy.now))) policy.now.variables) pointer.now) }
{
    let names = names_of(alloc, policy)?;
    tell_each_definition(
        alloc,
        pointer,
        &names,
        policy.variables.as_slice(),
        warnings,
    )?;
    Ok(())
}

/// Puts that the rule of that number never decides last, if another overrules it.
fn tell_overruled(
    alloc: Global,
    pointer: &str,
    policy: &Policy,
    number: usize,
    rule: &Rule,
    warnings: &mut Items<Warning>,
) -> Result<(), AllocError>
    requires { number ≤ length policy.now.rules }
    ensures { OnOk result (warnings.new ≡ warnings.old ++ told_of meaning.Overruled
        (overruling policy.now.algorithm policy.now.rules number rule.now) pointer.now) }
{
    match overruling(alloc, policy, number, rule)? {
        None => Ok(()),
        Some(id) => put(alloc, pointer, Meaning::Overruled(id), warnings),
    }
}

/// Puts what is told of the rule at a place by itself last.
fn tell_rule(
    alloc: Global,
    pointer: &str,
    rule: &Rule,
    warnings: &mut Items<Warning>,
) -> Result<(), AllocError>
    ensures { OnOk result (warnings.new ≡ warnings.old ++ rule_told rule.now pointer.now) }
{
    tell_target(alloc, pointer, &rule.target, warnings)?;
    tell_condition(alloc, pointer, &rule.condition, warnings)?;
    tell_given(alloc, pointer, Effects::both(), &rule.given, warnings)
}

/// Puts what is told of the rules of the policy at a place last.
fn tell_rules(
    alloc: Global,
    pointer: &str,
    policy: &Policy,
    warnings: &mut Items<Warning>,
) -> Result<(), AllocError>
    ensures { OnOk result (warnings.new ≡ warnings.old ++ rules_told policy.now 0 policy.now.rules pointer.now) }
{
    let rules = policy.rules.as_slice();
    for (number, rule) in rules.iter().enumerate() {
        let place = member(alloc, pointer, "Rule", number)?;
        tell_overruled(alloc, place.as_str(), policy, number, rule, warnings)?;
        tell_rule(alloc, place.as_str(), rule, warnings)?;
    }
    Ok(())
}

/// Puts what is told of the policy at a place last.
fn tell_policy(
    alloc: Global,
    pointer: &str,
    policy: &Policy,
    warnings: &mut Items<Warning>,
) -> Result<(), AllocError>
    ensures { OnOk result (warnings.new ≡ warnings.old ++ policy_told policy.now pointer.now) }
{
    tell_definitions(alloc, pointer, policy, warnings)?;
    tell_target(alloc, pointer, &policy.target, warnings)?;
    tell_rules(alloc, pointer, policy, warnings)?;
    tell_given(alloc, pointer, Effects::both(), &policy.given, warnings)
}

/// Puts what is told of the child of a set at a place last, and gives the effects that it may give.
#[cycle(child)]
#[tactic(auto, using(crate::proofs::Levels::set_told))]
fn tell_child(
    alloc: Global,
    pointer: &str,
    child: &Child,
    warnings: &mut Items<Warning>,
) -> Result<Effects, AllocError>
    ensures effects { IfOk result (λ e. e ≡ (seen child.now).gives) }
    ensures told { OnOk result (warnings.new ≡ warnings.old ++ (seen child.now).told pointer.now) }
{
    match child {
        Child::Policy(policy) => {
            let place = at_key(alloc, pointer, "Policy")?;
            tell_policy(alloc, place.as_str(), policy, warnings)?;
            Ok(policy_effects(policy))
        }
        Child::Set(set) => {
            let place = at_key(alloc, pointer, "PolicySet")?;
            tell_set(alloc, place.as_str(), set, warnings)
        }
        Child::Reference(_) => Ok(Effects::both()),
    }
}

/// Puts what is told of the set at a place last, and gives the effects that it may give.
#[cycle(child)]
#[tactic(auto, using(crate::proofs::Levels::set_level))]
fn tell_set(
    alloc: Global,
    pointer: &str,
    set: &PolicySet,
    warnings: &mut Items<Warning>,
) -> Result<Effects, AllocError>
    ensures effects { IfOk result (λ e. e ≡ (seen_set set.now).gives) }
    ensures told { OnOk result (warnings.new ≡ warnings.old ++ (seen_set set.now).told pointer.now) }
{
    tell_target(alloc, pointer, &set.target, warnings)?;
    let none = set_unless(set.algorithm);
    let effects = tell_children(alloc, pointer, set.children.as_slice(), none, warnings)?;
    tell_given(alloc, pointer, effects, &set.given, warnings)?;
    Ok(effects)
}

/// Puts what is told of the children of the set at a place last, and gives these effects with those that they may give.
#[cycle(child)]
fn tell_children(
    alloc: Global,
    pointer: &str,
    children: &[Child],
    without: Effects,
    warnings: &mut Items<Warning>,
) -> Result<Effects, AllocError>
    ensures effects { IfOk result (λ e. e ≡ fold either without (map (λ c. c.gives) (map seen children.now))) }
    ensures told { OnOk result (warnings.new ≡ warnings.old ++ numbered (codes "Children") 0
        (map (λ c. c.told) (map seen children.now)) pointer.now) }
{
    let mut effects = without;
    for (number, child) in children.iter().enumerate() {
        let place = member(alloc, pointer, "Children", number)?;
        effects = effects.or(tell_child(alloc, place.as_str(), child, warnings)?);
    }
    Ok(effects)
}

/// What of a document may not be meant, part by part: each part before those inside of it, keys in the order in which
/// docs/POLICIES.md has them, and lists in theirs.
///
/// # Errors
///
/// `AllocError` if memory runs out.
///
/// Its contract is an equation but for memory.
#[tactic(auto, using(crate::proofs::Levels::set_told))]
pub fn warnings(alloc: Global, document: &Document) -> Result<Items<Warning>, AllocError>
    ensures { IfOk result (λ w. w ≡ warnings_of document.now) }
{
    let mut warnings = Items::new(alloc);
    match document.tree() {
        Tree::Policy(policy) => {
            tell_policy(alloc, "/Policy", policy, &mut warnings)?;
        }
        Tree::Set(set) => {
            tell_set(alloc, "/PolicySet", set, &mut warnings)?;
        }
    }
    Ok(warnings)
}
