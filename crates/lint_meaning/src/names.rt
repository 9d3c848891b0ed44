//! The variables that a policy names.

ghost use Rattle.std.specs.Prelude.{◌≡◌, IfOk, OnOk};
ghost use Rattle.std.specs.List.{flat_map};
ghost use Rattle.ent_policy.specs.Variables.{condition_variables, variables};
ghost use Rattle.lint_meaning.specs.Names.{named};
ghost use Rattle.lint_meaning.specs.proofs_only.Adding.{Adds, HasNames};

use ent_policy::{
    AssignmentExpression, Expression, GivenExpression, GivenExpressions, Policy, Rule,
    VariableDefinition,
};
use std::alloc::{AllocError, Global};
use std::collections::BTreeSet;

/// Adds the variables that an expression names.
#[cycle(names)]
#[tactic(auto, using(crate::proofs::Named::none_added, crate::proofs::Named::application_names))]
fn put_names<'a>(
    expression: &'a Expression,
    names: &mut BTreeSet<&'a str>,
) -> Result<(), AllocError>
    ensures { OnOk result (Adds names.old (variables expression.now) names.new) }
{
    match expression {
        Expression::Variable(id) => {
            names.insert(id.as_str())?;
            Ok(())
        }
        Expression::Apply(_, arguments) => put_names_of(arguments.as_slice(), names),
        _ => Ok(()),
    }
}

/// Adds those that some expressions name.
#[cycle(names)]
fn put_names_of<'a>(
    expressions: &'a [Expression],
    names: &mut BTreeSet<&'a str>,
) -> Result<(), AllocError>
    ensures { OnOk result (Adds names.old (flat_map variables expressions.now) names.new) }
{
    for expression in expressions {
        put_names(expression, names)?;
    }
    Ok(())
}

/// Adds those that a condition names.
#[tactic(auto, using(crate::proofs::Named::none_added))]
fn put_condition<'a>(
    condition: &'a Option<Expression>,
    names: &mut BTreeSet<&'a str>,
) -> Result<(), AllocError>
    ensures { OnOk result (Adds names.old (condition_variables condition.now) names.new) }
{
    match condition {
        None => Ok(()),
        Some(expression) => put_names(expression, names),
    }
}

/// A part whose expressions may name variables.
trait Naming {
    ghost use Rattle.std.specs.Prelude.{ℕ, List, OnOk};
    ghost use Rattle.lint_meaning.specs.proofs_only.Adding.{Adds};

    ghost named: { Self → List (List ℕ) };

    /// Adds those that it names.
    fn put<'a>(&'a self, names: &mut BTreeSet<&'a str>) -> Result<(), AllocError>
        ensures { OnOk result (Adds names.old (named self.now) names.new) };
}

/// Adds those that some parts name.
fn put_each<'a, N: Naming>(parts: &'a [N], names: &mut BTreeSet<&'a str>) -> Result<(), AllocError>
    ensures { OnOk result (Adds names.old (flat_map N.named parts.now) names.new) }
{
    for part in parts {
        part.put(names)?;
    }
    Ok(())
}

impl Naming for AssignmentExpression {
    ghost use Rattle.ent_policy.specs.Variables.{assignment_variables};

    ghost named = { assignment_variables };

    fn put<'a>(&'a self, names: &mut BTreeSet<&'a str>) -> Result<(), AllocError> {
        put_names(&self.expression, names)
    }
}

impl Naming for GivenExpression {
    ghost use Rattle.ent_policy.specs.Variables.{given_expression_variables};

    ghost named = { given_expression_variables };

    fn put<'a>(&'a self, names: &mut BTreeSet<&'a str>) -> Result<(), AllocError> {
        put_each(self.assignments.as_slice(), names)
    }
}

impl Naming for GivenExpressions {
    ghost use Rattle.ent_policy.specs.Variables.{given_variables};

    ghost named = { given_variables };

    #[tactic(auto, using(crate::proofs::Named::both_added))]
    fn put<'a>(&'a self, names: &mut BTreeSet<&'a str>) -> Result<(), AllocError> {
        put_each(self.obligations.as_slice(), names)?;
        put_each(self.advice.as_slice(), names)
    }
}

impl Naming for Rule {
    ghost use Rattle.ent_policy.specs.Variables.{rule_variables};

    ghost named = { rule_variables };

    #[tactic(auto, using(crate::proofs::Named::both_added))]
    fn put<'a>(&'a self, names: &mut BTreeSet<&'a str>) -> Result<(), AllocError> {
        put_condition(&self.condition, names)?;
        self.given.put(names)
    }
}

impl Naming for VariableDefinition {
    ghost use Rattle.lint_meaning.specs.Names.{definition_variables};

    ghost named = { definition_variables };

    fn put<'a>(&'a self, names: &mut BTreeSet<&'a str>) -> Result<(), AllocError> {
        put_names(&self.expression, names)
    }
}

/// Adds those that the rules, the obligations, the advice and the definitions of a policy name.
#[tactic(auto, using(crate::proofs::Named::both_added))]
fn put_policy<'a>(policy: &'a Policy, names: &mut BTreeSet<&'a str>) -> Result<(), AllocError>
    ensures { OnOk result (Adds names.old (named policy.now) names.new) }
{
    put_each(policy.rules.as_slice(), names)?;
    policy.given.put(names)?;
    put_each(policy.variables.as_slice(), names)
}

/// The variables that a policy names.
pub(crate) fn names_of(alloc: Global, policy: &Policy) -> Result<BTreeSet<&str>, AllocError>
    ensures { IfOk result (HasNames (named policy.now)) }
{
    let mut names = BTreeSet::new(alloc);
    put_policy(policy, &mut names)?;
    Ok(names)
}
