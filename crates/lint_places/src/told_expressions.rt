//! What is told of expressions and their arguments.

ghost use Rattle.lint_places.specs.Told.{argument_told, body_told, condition_told, function_told};
ghost use Rattle.lint_places.specs.Told.{whole_told};
ghost use Rattle.lint_places.specs.Views.{Tells, scope_of};

use crate::scope::Scope;
use crate::surroundings::{judged, of_condition, of_expression};
use ent_functions::Function;
use ent_json::JsonTree;
use ent_polform::{raw_expression, raw_named};
use ent_policy::{CheckFault, DocFault, RawExpression};
use std::alloc::Global;

/// Judges a condition.
#[tactic(auto, unfolding(crate::specs::Told::condition_told))]
pub(crate) fn condition<J: JsonTree>(
    alloc: Global,
    scope: &Scope<'_, J>,
    json: &J,
) -> Result<(), CheckFault>
    ensures { Tells result (condition_told (scope_of J.content scope.now) (J.content json.now)) }
{
    let condition = raw_expression(alloc, json)?;
    let variables = scope.variables(alloc)?;
    judged(alloc, of_condition(alloc, condition, variables)?)
}

/// Judges an expression.
#[tactic(auto, unfolding(crate::specs::Told::whole_told))]
pub(crate) fn expression<J: JsonTree>(
    alloc: Global,
    scope: &Scope<'_, J>,
    json: &J,
) -> Result<(), CheckFault>
    ensures { Tells result (whole_told (scope_of J.content scope.now) (J.content json.now)) }
{
    let expression = raw_expression(alloc, json)?;
    let variables = scope.variables(alloc)?;
    judged(alloc, of_expression(alloc, expression, variables)?)
}

/// Judges the expression that has that body at that key.
#[tactic(auto, unfolding(crate::specs::Told::body_told))]
pub(crate) fn body<J: JsonTree>(
    alloc: Global,
    scope: &Scope<'_, J>,
    key: &str,
    json: &J,
) -> Result<(), CheckFault>
    ensures { Tells result (body_told key.now (scope_of J.content scope.now) (J.content json.now)) }
{
    let expression = raw_named(alloc, key, json)?;
    let variables = scope.variables(alloc)?;
    judged(alloc, of_expression(alloc, expression, variables)?)
}

/// Judges a function that stands as an argument.
#[tactic(auto, unfolding(crate::specs::Told::function_told))]
pub(crate) fn function<J: JsonTree>(alloc: Global, json: &J) -> Result<(), CheckFault>
    ensures { Tells result (function_told (J.content json.now)) }
{
    match raw_named(alloc, "Function", json)? {
        RawExpression::Function(id) => match Function::from_id(id.as_str()) {
            Some(_) => Ok(()),
            None => Err(CheckFault::Doc(DocFault::Function)),
        },
        _ => Err(CheckFault::Doc(DocFault::Form)),
    }
}

/// Judges an argument.
#[tactic(auto, unfolding(crate::specs::Told::argument_told))]
pub(crate) fn argument<J: JsonTree>(
    alloc: Global,
    scope: &Scope<'_, J>,
    json: &J,
) -> Result<(), CheckFault>
    ensures { Tells result (argument_told (scope_of J.content scope.now) (J.content json.now)) }
{
    match json.one_member() {
        None => Err(CheckFault::Doc(DocFault::Form)),
        Some(("Function", body)) => function(alloc, body),
        Some(_) => expression(alloc, scope, json),
    }
}
