//! What is told of the arguments of a function.

ghost use Rattle.std.specs.Prelude.{◌≡◌, IfOk, IfSome, map};
ghost use Rattle.ent_json.specs.Objects.{one_member};
ghost use Rattle.ent_policy.specs.Limits.{length_fault};
ghost use Rattle.lint_places.specs.Told.{arguments_told, function_told};
ghost use Rattle.ent_polform.specs.Expressions.{expression_of};
ghost use Rattle.lint_places.specs.Views.{Tells, scope_of};
ghost use Rattle.lint_places.specs.proofs_only.Together.{argument_as, arguments_as, assigned_told, expression_as, function_as};

use crate::clear::is_later;
use crate::outcome::{earlier, found, told};
use crate::scope::Scope;
use crate::surroundings::{assigned, judged, of_assignments};
use crate::told_expressions::{argument, function};
use ent_json::JsonTree;
use ent_polform::raw_expression;
use ent_policy::{CheckFault, DocFault, RawAssignment};
use ent_values::Items;
use std::alloc::{AllocError, Global};

/// The most members that a list may have.
const LONGEST: usize = 256;

/// The fault of a list that is too long.
fn length_fault<J>(values: &[J]) -> Option<DocFault>
    ensures { result ≡ length_fault values.now }
{
    if values.len() > LONGEST {
        Some(DocFault::Size)
    } else {
        None
    }
}

/// What a function is judged as together with other arguments: as nothing, if there is such a function.
fn function_as<J: JsonTree>(
    alloc: Global,
    json: &J,
) -> Result<Option<Option<RawAssignment>>, AllocError>
    ensures { IfOk result (λ o. o ≡ function_as (function_told (J.content json.now))) }
{
    match found(function(alloc, json))? {
        None => Ok(Some(None)),
        Some(_) => Ok(None),
    }
}

/// What an expression is judged as together with other arguments: as an assignment, if it can be read.
fn expression_as<J: JsonTree>(
    alloc: Global,
    json: &J,
) -> Result<Option<Option<RawAssignment>>, AllocError>
    ensures { IfOk result (λ o. o ≡ expression_as (expression_of (J.content json.now))) }
{
    match raw_expression(alloc, json) {
        Ok(expression) => Ok(Some(Some(assigned(alloc, expression)?))),
        Err(CheckFault::Doc(_)) => Ok(None),
        Err(CheckFault::Memory) => Err(AllocError),
    }
}

/// What an argument is judged as together with others; none where it may not be judged so.
fn argument_as<J: JsonTree>(
    alloc: Global,
    json: &J,
) -> Result<Option<Option<RawAssignment>>, AllocError>
    ensures { IfOk result (λ o. o ≡ argument_as (J.content json.now) (one_member (J.content json.now))) }
{
    match json.one_member() {
        None => Ok(None),
        Some(("Function", body)) => function_as(alloc, body),
        Some(_) => expression_as(alloc, json),
    }
}

/// What some arguments are judged as, if each may be judged with the others.
fn arguments_as<J: JsonTree>(
    alloc: Global,
    values: &[J],
) -> Result<Option<Items<RawAssignment>>, AllocError>
    ensures { IfOk result (λ o. o ≡ arguments_as (map J.content values.now)) }
{
    let mut all = Items::with_capacity(alloc, values.len())?;
    for value in values {
        match argument_as(alloc, value)? {
            None => return Ok(None),
            Some(None) => {}
            Some(Some(assignment)) => all.push(assignment)?,
        }
    }
    Ok(Some(all))
}

/// Judges assignments.
#[tactic(auto, unfolding(crate::specs::proofs_only::Together::assigned_told))]
fn assignments_judged<J: JsonTree>(
    alloc: Global,
    scope: &Scope<'_, J>,
    assignments: Items<RawAssignment>,
) -> Result<(), CheckFault>
    ensures { Tells result (assigned_told (scope_of J.content scope.now) assignments) }
{
    let variables = scope.variables(alloc)?;
    judged(alloc, of_assignments(alloc, assignments, variables)?)
}

/// What is told of arguments, if it is seen of all of them together: then nothing is told of one before types. So the
/// definitions around them are judged once.
fn seen_together<J: JsonTree>(
    alloc: Global,
    scope: &Scope<'_, J>,
    values: &[J],
) -> Result<Option<Option<DocFault>>, AllocError>
    ensures { IfOk result (λ o. IfSome o (λ told. told ≡ arguments_told (scope_of J.content scope.now)
        (map J.content values.now))) }
{
    if length_fault(values).is_some() {
        return Ok(None);
    }
    let Some(assignments) = arguments_as(alloc, values)? else {
        return Ok(None);
    };
    if assignments.is_empty() {
        return Ok(None);
    }
    let told = found(assignments_judged(alloc, scope, assignments))?;
    if is_later(DocFault::Depth, told) {
        Ok(Some(told))
    } else {
        Ok(None)
    }
}

/// Judges arguments, each by itself.
#[tactic(auto, unfolding(crate::specs::Told::arguments_told))]
fn each_judged<J: JsonTree>(
    alloc: Global,
    scope: &Scope<'_, J>,
    values: &[J],
) -> Result<(), CheckFault>
    ensures { Tells result (arguments_told (scope_of J.content scope.now) (map J.content values.now)) }
{
    let mut first = length_fault(values);
    for value in values {
        first = earlier(first, found(argument(alloc, scope, value))?);
    }
    told(first)
}

/// Judges arguments, each by itself, but together where the same is told so.
pub(crate) fn arguments<J: JsonTree>(
    alloc: Global,
    scope: &Scope<'_, J>,
    values: &[J],
) -> Result<(), CheckFault>
    ensures { Tells result (arguments_told (scope_of J.content scope.now) (map J.content values.now)) }
{
    match seen_together(alloc, scope, values)? {
        Some(seen) => told(seen),
        None => each_judged(alloc, scope, values),
    }
}
