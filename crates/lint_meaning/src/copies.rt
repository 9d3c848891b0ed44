//! Rules with the target and the condition of another rule by which they never decide.

ghost use Rattle.std.specs.Prelude.{◌≡◌, IfOk, find, length, option_map, ◌≤◌};
ghost use Rattle.ent_policy.specs.declared.document.Rule.{Rule};
ghost use Rattle.lint_meaning.specs.Copies.{are_copies, asks, has_its_way, has_members, overrules, overruling, prevails};
ghost use Rattle.lint_meaning.specs.Copies.{rivals, same_condition};

use ent_combine::RuleAlg;
use ent_policy::{Effect, Expression, Policy, Rule};
use ent_values::Text;
use std::alloc::{AllocError, Global};

/// Whether two conditions are the same, or both are absent.
fn is_same_condition(one: &Option<Expression>, other: &Option<Expression>) -> bool
    ensures { result ≡ same_condition one.now other.now }
{
    match (one, other) {
        (None, None) => true,
        (Some(one), Some(other)) => one == other,
        _ => false,
    }
}

/// Whether a rule asks for something: its target has members, or it has a condition.
fn asks(rule: &Rule) -> bool
    ensures { result ≡ asks rule.now }
{
    !rule.target.any_of.is_empty() || rule.condition.is_some()
}

/// Whether two rules ask for the same.
fn are_copies(one: &Rule, other: &Rule) -> bool
    ensures { result ≡ are_copies one.now other.now }
{
    asks(one) && one.target == other.target && is_same_condition(&one.condition, &other.condition)
}

/// Whether an effect prevails where rules have both.
fn prevails(algorithm: RuleAlg, effect: Effect) -> bool
    ensures { result ≡ prevails algorithm effect }
{
    match algorithm {
        RuleAlg::DenyOverrides | RuleAlg::OrderedDenyOverrides | RuleAlg::PermitUnlessDeny => {
            effect == Effect::Deny
        }
        RuleAlg::PermitOverrides | RuleAlg::OrderedPermitOverrides | RuleAlg::DenyUnlessPermit => {
            effect == Effect::Permit
        }
        RuleAlg::FirstApplicable => false,
    }
}

/// Whether of two rules that apply to the same requests the one of the first effect has its way.
fn has_its_way(algorithm: RuleAlg, one: Effect, other: Effect) -> bool
    ensures { result ≡ has_its_way algorithm one other }
{
    match algorithm {
        RuleAlg::FirstApplicable => true,
        _ => prevails(algorithm, one) && !prevails(algorithm, other),
    }
}

/// Whether another rule overrules a rule.
fn overrules(algorithm: RuleAlg, rule: &Rule, other: &Rule) -> bool
    ensures { result ≡ overrules algorithm rule.now other.now }
{
    has_its_way(algorithm, other.effect, rule.effect) && are_copies(other, rule)
}

/// The rules that may overrule the one of that number.
fn rivals(algorithm: RuleAlg, number: usize, rules: &[Rule]) -> &[Rule]
    requires { number ≤ length rules.now }
    ensures { result.now ≡ rivals algorithm number rules.now }
{
    match algorithm {
        RuleAlg::FirstApplicable => &rules[..number],
        _ => rules,
    }
}

/// The id of the first of some rules that overrules a rule.
fn first_overruling(
    alloc: Global,
    algorithm: RuleAlg,
    rule: &Rule,
    rivals: &[Rule],
) -> Result<Option<Text>, AllocError>
    ensures { IfOk result (λ o. o ≡ option_map (λ (r : Rule). r.id) (find (overrules algorithm rule.now) rivals.now)) }
{
    for rival in rivals {
        if overrules(algorithm, rule, rival) {
            return Ok(Some(rival.id.copy(alloc)?));
        }
    }
    Ok(None)
}

/// The id of the first rule of a policy that overrules the one of that number.
pub(crate) fn overruling(
    alloc: Global,
    policy: &Policy,
    number: usize,
    rule: &Rule,
) -> Result<Option<Text>, AllocError>
    requires { number ≤ length policy.now.rules }
    ensures { IfOk result (λ o. o ≡ overruling policy.now.algorithm policy.now.rules number rule.now) }
{
    let rivals = rivals(policy.algorithm, number, policy.rules.as_slice());
    first_overruling(alloc, policy.algorithm, rule, rivals)
}
