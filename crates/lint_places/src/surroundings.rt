//! Documents in which nothing stands but the part that is judged.

ghost use Rattle.std.specs.Prelude.{◌≡◌, IfOk};
ghost use Rattle.ent_policy.specs.Check.{fault_of};
ghost use Rattle.lint_places.specs.Told.{everything, nothing_given, of_advice, of_all_ofs, of_any_ofs, of_assignments};
ghost use Rattle.lint_places.specs.Told.{of_condition, of_expression, of_matches, of_obligations, of_rules, of_target};
ghost use Rattle.lint_places.specs.Told.{plain_policy, plain_set};
ghost use Rattle.lint_places.specs.Views.{Tells};
ghost use Rattle.lint_places.specs.proofs_only.Together.{assigned};

use ent_policy::{
    CheckFault, Effect, RawAllOf, RawAnyOf, RawAssignment, RawChild, RawDocument, RawExpression,
    RawGivenExpression, RawGivenExpressions, RawMatch, RawPolicy, RawPolicySet, RawRule, RawTarget,
    RawVariableDefinition, check,
};
use ent_values::{Items, Text};
use std::alloc::{AllocError, Global};

/// The variables of the policy around a part.
pub(crate) type Variables = Items<RawVariableDefinition>;

/// Passes a document that has no fault, or tells its first one.
#[tactic(auto, unfolding(ent_policy::specs::Check::checked))]
pub(crate) fn judged(alloc: Global, document: RawDocument) -> Result<(), CheckFault>
    ensures { Tells result (fault_of document) }
{
    check(alloc, document)?;
    Ok(())
}

/// A target that every request matches, for which nothing is allocated.
fn everything(alloc: Global) -> RawTarget
    ensures { result ≡ everything }
{
    RawTarget {
        any_of: Items::new(alloc),
    }
}

/// A policy of these parts.
#[tactic(auto, unfolding(crate::specs::Told::plain_policy))]
fn plain_policy(
    alloc: Global,
    target: RawTarget,
    rules: Items<RawRule>,
    given: RawGivenExpressions,
    variables: Variables,
) -> Result<RawDocument, AllocError>
    ensures { IfOk result (λ d. d ≡ plain_policy target rules given variables) }
{
    let id = Text::from_str(alloc, "-")?;
    let version = Text::from_str(alloc, "1")?;
    let algorithm = Text::from_str(
        alloc,
        "urn:oasis:names:tc:xacml:3.0:rule-combining-algorithm:deny-overrides",
    )?;
    Ok(RawDocument::Policy(RawPolicy {
        id,
        version,
        algorithm,
        target,
        variables,
        rules,
        given,
    }))
}

/// A policy set of these children.
#[tactic(auto, unfolding(crate::specs::Told::plain_set))]
pub(crate) fn plain_set(alloc: Global, children: Items<RawChild>) -> Result<RawDocument, AllocError>
    ensures { IfOk result (λ d. d ≡ plain_set children) }
{
    let id = Text::from_str(alloc, "-")?;
    let version = Text::from_str(alloc, "1")?;
    let algorithm = Text::from_str(
        alloc,
        "urn:oasis:names:tc:xacml:3.0:policy-combining-algorithm:deny-overrides",
    )?;
    Ok(RawDocument::Set(RawPolicySet {
        id,
        version,
        algorithm,
        target: everything(alloc),
        children,
        given: RawGivenExpressions::none(alloc),
    }))
}

/// A policy of nothing but rules.
#[tactic(auto, unfolding(crate::specs::Told::of_rules))]
pub(crate) fn of_rules(
    alloc: Global,
    rules: Items<RawRule>,
    variables: Variables,
) -> Result<RawDocument, AllocError>
    ensures { IfOk result (λ d. d ≡ of_rules rules variables) }
{
    let given = RawGivenExpressions::none(alloc);
    plain_policy(alloc, everything(alloc), rules, given, variables)
}

/// A policy of nothing but a target.
#[tactic(auto, unfolding(crate::specs::Told::of_target))]
pub(crate) fn of_target(
    alloc: Global,
    target: RawTarget,
    variables: Variables,
) -> Result<RawDocument, AllocError>
    ensures { IfOk result (λ d. d ≡ of_target target variables) }
{
    let given = RawGivenExpressions::none(alloc);
    plain_policy(alloc, target, Items::new(alloc), given, variables)
}

/// A policy of nothing but the members of its target.
#[tactic(auto, unfolding(crate::specs::Told::of_any_ofs))]
pub(crate) fn of_any_ofs(
    alloc: Global,
    any_of: Items<RawAnyOf>,
    variables: Variables,
) -> Result<RawDocument, AllocError>
    ensures { IfOk result (λ d. d ≡ of_any_ofs any_of variables) }
{
    of_target(alloc, RawTarget { any_of }, variables)
}

/// A policy of nothing but the members of the one member of its target.
#[tactic(auto, unfolding(crate::specs::Told::of_all_ofs))]
pub(crate) fn of_all_ofs(
    alloc: Global,
    all_of: Items<RawAllOf>,
    variables: Variables,
) -> Result<RawDocument, AllocError>
    ensures { IfOk result (λ d. d ≡ of_all_ofs all_of variables) }
{
    let any_of = Items::of_one(alloc, RawAnyOf { all_of })?;
    of_any_ofs(alloc, any_of, variables)
}

/// A policy of nothing but matches, all of them in one place of its target.
#[tactic(auto, unfolding(crate::specs::Told::of_matches))]
pub(crate) fn of_matches(
    alloc: Global,
    matches: Items<RawMatch>,
    variables: Variables,
) -> Result<RawDocument, AllocError>
    ensures { IfOk result (λ d. d ≡ of_matches matches variables) }
{
    let all_of = Items::of_one(alloc, RawAllOf { matches })?;
    of_all_ofs(alloc, all_of, variables)
}

/// A policy of nothing but the condition of a rule.
#[tactic(auto, unfolding(crate::specs::Told::of_condition))]
pub(crate) fn of_condition(
    alloc: Global,
    condition: RawExpression,
    variables: Variables,
) -> Result<RawDocument, AllocError>
    ensures { IfOk result (λ d. d ≡ of_condition condition variables) }
{
    let id = Text::from_str(alloc, "-")?;
    let rule = RawRule {
        id,
        effect: Effect::Permit,
        target: everything(alloc),
        condition: Some(condition),
        given: RawGivenExpressions::none(alloc),
    };
    let rules = Items::of_one(alloc, rule)?;
    of_rules(alloc, rules, variables)
}

/// A policy of nothing but obligations.
#[tactic(auto, unfolding(crate::specs::Told::of_obligations))]
pub(crate) fn of_obligations(
    alloc: Global,
    obligations: Items<RawGivenExpression>,
    variables: Variables,
) -> Result<RawDocument, AllocError>
    ensures { IfOk result (λ d. d ≡ of_obligations obligations variables) }
{
    let given = RawGivenExpressions {
        obligations,
        advice: Items::new(alloc),
    };
    plain_policy(
        alloc,
        everything(alloc),
        Items::new(alloc),
        given,
        variables,
    )
}

/// A policy of nothing but advice.
#[tactic(auto, unfolding(crate::specs::Told::of_advice))]
pub(crate) fn of_advice(
    alloc: Global,
    advice: Items<RawGivenExpression>,
    variables: Variables,
) -> Result<RawDocument, AllocError>
    ensures { IfOk result (λ d. d ≡ of_advice advice variables) }
{
    let given = RawGivenExpressions {
        obligations: Items::new(alloc),
        advice,
    };
    plain_policy(
        alloc,
        everything(alloc),
        Items::new(alloc),
        given,
        variables,
    )
}

/// A policy of nothing but the assignments of an obligation.
#[tactic(auto, unfolding(crate::specs::Told::of_assignments))]
pub(crate) fn of_assignments(
    alloc: Global,
    assignments: Items<RawAssignment>,
    variables: Variables,
) -> Result<RawDocument, AllocError>
    ensures { IfOk result (λ d. d ≡ of_assignments assignments variables) }
{
    let id = Text::from_str(alloc, "-")?;
    let obligation = RawGivenExpression {
        id,
        effect: Effect::Permit,
        assignments,
    };
    let obligations = Items::of_one(alloc, obligation)?;
    of_obligations(alloc, obligations, variables)
}

/// An assignment of an expression, and of nothing else.
pub(crate) fn assigned(
    alloc: Global,
    expression: RawExpression,
) -> Result<RawAssignment, AllocError>
    ensures { IfOk result (λ a. a ≡ assigned expression) }
{
    let attribute = Text::from_str(alloc, "-")?;
    Ok(RawAssignment {
        attribute,
        category: None,
        issuer: None,
        expression,
    })
}

/// A policy of nothing but an expression, which an obligation assigns.
#[tactic(auto, unfolding(crate::specs::Told::of_expression))]
pub(crate) fn of_expression(
    alloc: Global,
    expression: RawExpression,
    variables: Variables,
) -> Result<RawDocument, AllocError>
    ensures { IfOk result (λ d. d ≡ of_expression expression variables) }
{
    let assignments = Items::of_one(alloc, assigned(alloc, expression)?)?;
    of_assignments(alloc, assignments, variables)
}
