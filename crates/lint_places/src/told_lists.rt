//! What is told of the lists in a document, of which one member alone is a list too.

ghost use Rattle.std.specs.Prelude.{◌≡◌, map};
ghost use Rattle.lint_places.specs.Told.{advice_told, all_ofs_told, any_ofs_told, assignments_told, children_told};
ghost use Rattle.lint_places.specs.Told.{matches_told, obligations_told, rules_told};
ghost use Rattle.lint_places.specs.Views.{Tells, scope_of};

use crate::reading::{all, all_given};
use crate::scope::Scope;
use crate::surroundings::{
    judged, of_advice, of_all_ofs, of_any_ofs, of_assignments, of_matches, of_obligations,
    of_rules, plain_set,
};
use ent_json::JsonTree;
use ent_policy::CheckFault;
use std::alloc::Global;

/// Judges children of a set.
#[tactic(auto, unfolding(crate::specs::Told::children_told))]
pub(crate) fn children<J: JsonTree>(alloc: Global, values: &[J]) -> Result<(), CheckFault>
    ensures { Tells result (children_told (map J.content values.now)) }
{
    let children = all(alloc, values)?;
    judged(alloc, plain_set(alloc, children)?)
}

/// Judges rules of a policy.
#[tactic(auto, unfolding(crate::specs::Told::rules_told))]
pub(crate) fn rules<J: JsonTree>(
    alloc: Global,
    scope: &Scope<'_, J>,
    values: &[J],
) -> Result<(), CheckFault>
    ensures { Tells result (rules_told (scope_of J.content scope.now) (map J.content values.now)) }
{
    let rules = all(alloc, values)?;
    let variables = scope.variables(alloc)?;
    judged(alloc, of_rules(alloc, rules, variables)?)
}

/// Judges members of a target.
#[tactic(auto, unfolding(crate::specs::Told::any_ofs_told))]
pub(crate) fn any_ofs<J: JsonTree>(
    alloc: Global,
    scope: &Scope<'_, J>,
    values: &[J],
) -> Result<(), CheckFault>
    ensures { Tells result (any_ofs_told (scope_of J.content scope.now) (map J.content values.now)) }
{
    let any_ofs = all(alloc, values)?;
    let variables = scope.variables(alloc)?;
    judged(alloc, of_any_ofs(alloc, any_ofs, variables)?)
}

/// Judges members of a member of a target.
#[tactic(auto, unfolding(crate::specs::Told::all_ofs_told))]
pub(crate) fn all_ofs<J: JsonTree>(
    alloc: Global,
    scope: &Scope<'_, J>,
    values: &[J],
) -> Result<(), CheckFault>
    ensures { Tells result (all_ofs_told (scope_of J.content scope.now) (map J.content values.now)) }
{
    let all_ofs = all(alloc, values)?;
    let variables = scope.variables(alloc)?;
    judged(alloc, of_all_ofs(alloc, all_ofs, variables)?)
}

/// Judges matches, all of them in one place of a target.
#[tactic(auto, unfolding(crate::specs::Told::matches_told))]
pub(crate) fn matches<J: JsonTree>(
    alloc: Global,
    scope: &Scope<'_, J>,
    values: &[J],
) -> Result<(), CheckFault>
    ensures { Tells result (matches_told (scope_of J.content scope.now) (map J.content values.now)) }
{
    let matches = all(alloc, values)?;
    let variables = scope.variables(alloc)?;
    judged(alloc, of_matches(alloc, matches, variables)?)
}

/// Judges obligations.
#[tactic(auto, unfolding(crate::specs::Told::obligations_told))]
pub(crate) fn obligations<J: JsonTree>(
    alloc: Global,
    scope: &Scope<'_, J>,
    values: &[J],
) -> Result<(), CheckFault>
    ensures { Tells result (obligations_told (scope_of J.content scope.now) (map J.content values.now)) }
{
    let obligations = all_given(alloc, values, "ObligationId", "FulfillOn")?;
    let variables = scope.variables(alloc)?;
    judged(alloc, of_obligations(alloc, obligations, variables)?)
}

/// Judges advice.
#[tactic(auto, unfolding(crate::specs::Told::advice_told))]
pub(crate) fn advice<J: JsonTree>(
    alloc: Global,
    scope: &Scope<'_, J>,
    values: &[J],
) -> Result<(), CheckFault>
    ensures { Tells result (advice_told (scope_of J.content scope.now) (map J.content values.now)) }
{
    let advice = all_given(alloc, values, "AdviceId", "AppliesTo")?;
    let variables = scope.variables(alloc)?;
    judged(alloc, of_advice(alloc, advice, variables)?)
}

/// Judges assignments of an obligation or an advice.
#[tactic(auto, unfolding(crate::specs::Told::assignments_told))]
pub(crate) fn assignments<J: JsonTree>(
    alloc: Global,
    scope: &Scope<'_, J>,
    values: &[J],
) -> Result<(), CheckFault>
    ensures { Tells result (assignments_told (scope_of J.content scope.now) (map J.content values.now)) }
{
    let assignments = all(alloc, values)?;
    let variables = scope.variables(alloc)?;
    judged(alloc, of_assignments(alloc, assignments, variables)?)
}
