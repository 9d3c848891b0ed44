//! The variables of policies: whether each is defined once and not through itself.

ghost use Rattle.std.specs.Prelude.{◌≡◌, [], false, IfOk, map};
ghost use Rattle.std.specs.List.{flat_map, list_all};
ghost use Rattle.std.specs.List.Sorted.{IsPermutation};
ghost use Rattle.ent_policy.specs.Limits.{has_double};
ghost use Rattle.ent_policy.specs.proofs_only.Order.{AreDistinctIds, IsFoundOrder, IsOrdered, has_id};
ghost use Rattle.ent_policy.specs.Variables.{condition_variables, given_variables, used, variables};
ghost use Rattle.ent_policy.specs.Variables.{ids_of, is_resolved, uses_only};

use crate::document::{Policy, Rule};
use crate::expression::{Expression, VariableDefinition};
use crate::given::{AssignmentExpression, GivenExpression, GivenExpressions};
use std::alloc::{AllocError, Global};
use std::collections::{BTreeMap, BTreeSet};

/// Whether all variables of an expression are known.
#[cycle(known)]
fn uses_only(expression: &Expression, known: &BTreeSet<&str>) -> bool
    ensures { result ≡ uses_only (has_id known.now) expression.now }
{
    match expression {
        Expression::Variable(id) => known.contains(id.as_str()),
        Expression::Apply(_, arguments) => all_use_only(arguments.as_slice(), known),
        _ => true,
    }
}

/// Whether all variables of some expressions are known.
#[cycle(known)]
fn all_use_only(expressions: &[Expression], known: &BTreeSet<&str>) -> bool
    ensures { result ≡ list_all (has_id known.now) (flat_map (λ ids. ids) (map variables expressions.now)) }
{
    for expression in expressions {
        if !uses_only(expression, known) {
            return false;
        }
    }
    true
}

/// Whether all variables of a condition are known.
fn condition_uses_only(condition: &Option<Expression>, known: &BTreeSet<&str>) -> bool
    ensures { result ≡ list_all (has_id known.now) (condition_variables condition.now) }
{
    match condition {
        None => true,
        Some(expression) => uses_only(expression, known),
    }
}

/// A part whose expressions use variables.
trait Using {
    ghost use Rattle.std.specs.Prelude.{◌≡◌, ℕ, List};
    ghost use Rattle.std.specs.List.{list_all};
    ghost use Rattle.ent_policy.specs.proofs_only.Order.{has_id};

    ghost uses: { Self → List (List ℕ) };

    /// Whether all variables of the part are known.
    fn knows(&self, known: &BTreeSet<&str>) -> bool
        ensures { result ≡ list_all (has_id known.now) (uses self.now) };
}

/// Whether all variables of some parts are known.
fn each_knows<U: Using>(parts: &[U], known: &BTreeSet<&str>) -> bool
    ensures { result ≡ list_all (has_id known.now) (flat_map U.uses parts.now) }
{
    for part in parts {
        if !part.knows(known) {
            return false;
        }
    }
    true
}

impl Using for AssignmentExpression {
    ghost use Rattle.ent_policy.specs.Variables.{assignment_variables};

    ghost uses = { assignment_variables };

    fn knows(&self, known: &BTreeSet<&str>) -> bool {
        uses_only(&self.expression, known)
    }
}

impl Using for GivenExpression {
    ghost use Rattle.ent_policy.specs.Variables.{given_expression_variables};

    ghost uses = { given_expression_variables };

    fn knows(&self, known: &BTreeSet<&str>) -> bool {
        each_knows(self.assignments.as_slice(), known)
    }
}

impl Using for GivenExpressions {
    ghost use Rattle.ent_policy.specs.Variables.{given_variables};

    ghost uses = { given_variables };

    #[tactic(auto, using(crate::proofs::Used::all_of_both))]
    fn knows(&self, known: &BTreeSet<&str>) -> bool {
        each_knows(self.obligations.as_slice(), known) && each_knows(self.advice.as_slice(), known)
    }
}

impl Using for Rule {
    ghost use Rattle.ent_policy.specs.Variables.{rule_variables};

    ghost uses = { rule_variables };

    #[tactic(auto, using(crate::proofs::Used::all_of_both))]
    fn knows(&self, known: &BTreeSet<&str>) -> bool {
        condition_uses_only(&self.condition, known) && self.given.knows(known)
    }
}

/// Whether all variables of a policy's rules, obligations and advice are known.
#[tactic(auto, using(crate::proofs::Used::all_of_both))]
fn policy_uses_only(policy: &Policy, known: &BTreeSet<&str>) -> bool
    ensures { result ≡ list_all (has_id known.now) (used policy.now) }
{
    each_knows(policy.rules.as_slice(), known) && policy.given.knows(known)
}

/// Whether the obligations and the advice of a set use no variable, as none is defined for them.
pub(crate) fn uses_none(alloc: Global, given: &GivenExpressions) -> bool
    ensures { result ≡ list_all (is_resolved []) (given_variables given.now) }
{
    let known = BTreeSet::new(alloc);
    given.knows(&known)
}

/// The ids of some definitions, or `None` if two are the same.
fn distinct_ids(
    alloc: Global,
    definitions: &[VariableDefinition],
) -> Result<Option<BTreeSet<&str>>, AllocError>
    ensures { IfOk result (λ ids. AreDistinctIds definitions.now ids) }
{
    let mut ids = BTreeSet::new(alloc);
    for definition in definitions {
        if !ids.insert(definition.id.as_str())? {
            return Ok(None);
        }
    }
    Ok(Some(ids))
}

/// A step of a walk along the uses of variables.
#[derive(Drop)]
enum UseStep<'a> {
    Enter(&'a VariableDefinition),
    Leave(&'a VariableDefinition),
}

/// Adds that the definitions of an expression's variables are entered.
#[cycle(uses)]
fn add_uses<'a>(
    expression: &Expression,
    by_id: &BTreeMap<&str, &'a VariableDefinition>,
    steps: &mut Vec<UseStep<'a>>,
) -> Result<(), AllocError> {
    match expression {
        Expression::Variable(id) => match by_id.get(id.as_str()) {
            Some(definition) => {
                steps.push(UseStep::Enter(*definition))?;
                Ok(())
            }
            None => Ok(()),
        },
        Expression::Apply(_, arguments) => add_all_uses(arguments.as_slice(), by_id, steps),
        _ => Ok(()),
    }
}

/// Adds that the definitions of the variables of some expressions are entered.
#[cycle(uses)]
fn add_all_uses<'a>(
    expressions: &[Expression],
    by_id: &BTreeMap<&str, &'a VariableDefinition>,
    steps: &mut Vec<UseStep<'a>>,
) -> Result<(), AllocError> {
    for expression in expressions {
        add_uses(expression, by_id, steps)?;
    }
    Ok(())
}

/// Enters a definition, unless it was entered before: the walk leaves it once it has entered those that it uses.
fn enter<'a>(
    definition: &'a VariableDefinition,
    by_id: &BTreeMap<&str, &'a VariableDefinition>,
    entered: &mut BTreeSet<&'a str>,
    steps: &mut Vec<UseStep<'a>>,
) -> Result<(), AllocError> {
    if entered.insert(definition.id.as_str())? {
        steps.push(UseStep::Leave(definition))?;
        add_uses(&definition.expression, by_id, steps)?;
    }
    Ok(())
}

/// Numbers by the ids of definitions, from `count` down as the walk leaves them.
fn walk<'a>(
    alloc: Global,
    by_id: &BTreeMap<&str, &'a VariableDefinition>,
    mut steps: Vec<UseStep<'a>>,
    count: usize,
) -> Result<BTreeMap<&'a str, usize>, AllocError> {
    let mut entered = BTreeSet::new(alloc);
    let mut ranks = BTreeMap::new(alloc);
    let mut rank = count;
    for _ in 0..u64::MAX {
        match steps.pop() {
            None => return Ok(ranks),
            Some(UseStep::Enter(definition)) => {
                enter(definition, by_id, &mut entered, &mut steps)?;
            }
            Some(UseStep::Leave(definition)) => {
                ranks.insert(definition.id.as_str(), rank)?;
                rank = rank.saturating_sub(1);
            }
        }
    }
    Ok(ranks)
}

/// The number of an id, 0 where there is none.
fn rank(ranks: &BTreeMap<&str, usize>, id: &str) -> usize {
    match ranks.get(id) {
        Some(rank) => *rank,
        None => 0,
    }
}

/// The definitions in their order, each lent.
fn lent(
    alloc: Global,
    definitions: &[VariableDefinition],
) -> Result<Vec<&VariableDefinition>, AllocError>
    ensures { IfOk result (λ v. map (λ d. d.now) v.items ≡ definitions.now) }
{
    let mut all = Vec::with_capacity(alloc, definitions.len())?;
    for definition in definitions {
        all.push(definition)?;
    }
    Ok(all)
}

/// The definitions, mostly each before those that it uses.
///
/// The order only spares time: where no definition is used through itself, each stands before those that it uses.
fn users_first(
    alloc: Global,
    definitions: &[VariableDefinition],
) -> Result<Vec<&VariableDefinition>, AllocError>
    ensures { IfOk result (λ v. IsPermutation definitions.now (map (λ d. d.now) v.items)) }
{
    let mut by_id = BTreeMap::new(alloc);
    let mut steps = Vec::new(alloc);
    for definition in definitions {
        by_id.insert(definition.id.as_str(), definition)?;
        steps.push(UseStep::Enter(definition))?;
    }
    let ranks = walk(alloc, &by_id, steps, definitions.len())?;
    let mut all = lent(alloc, definitions)?;
    all.sort_unstable_by_key(|definition| rank(&ranks, definition.id.as_str()));
    Ok(all)
}

/// The definitions, each after those that it uses; or `None`, if one leads to no end.
fn in_order(
    alloc: Global,
    definitions: &[VariableDefinition],
) -> Result<Option<Vec<&VariableDefinition>>, AllocError>
    requires { has_double (ids_of definitions.now) ≡ false }
    ensures { IfOk result (λ found. IsFoundOrder definitions.now found) }
{
    let mut pending = users_first(alloc, definitions)?;
    let mut stuck = Vec::new(alloc);
    let mut known = BTreeSet::new(alloc);
    let mut ordered = Vec::new(alloc);
    while let Some(definition) = pending.pop() {
        if uses_only(&definition.expression, &known) {
            known.insert(definition.id.as_str())?;
            ordered.push(definition)?;
            pending.append(&mut stuck)?;
        } else {
            stuck.push(definition)?;
        }
    }
    if stuck.is_empty() {
        Ok(Some(ordered))
    } else {
        Ok(None)
    }
}

/// The definitions of a policy, each after those that it uses; or `None`, if a variable of the policy is defined twice,
/// not at all, or through itself.
#[tactic(auto, using(crate::proofs::References::bad_condition), unfolding(crate::specs::Variables::has_bad_variable))]
pub(crate) fn ordered(
    alloc: Global,
    policy: &Policy,
) -> Result<Option<Vec<&VariableDefinition>>, AllocError>
    ensures { IfOk result (λ found. IsOrdered policy.now found) }
{
    let definitions = policy.variables.as_slice();
    let Some(ids) = distinct_ids(alloc, definitions)? else {
        return Ok(None);
    };
    let Some(order) = in_order(alloc, definitions)? else {
        return Ok(None);
    };
    if !policy_uses_only(policy, &ids) {
        return Ok(None);
    }
    Ok(Some(order))
}
