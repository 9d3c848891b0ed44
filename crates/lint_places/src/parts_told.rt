//! What is told of a part: the first fault of a document in which nothing else stands, but for the variable definitions
//! around the part.

ghost use Rattle.std.specs.Prelude.{◌≡◌, IfOk, map};
ghost use Rattle.ent_polform.specs.Form.{raw_of};
ghost use Rattle.lint_places.specs.Told.{definition_told, definitions_told, expression_told, first_fault, given_told, policy_told};
ghost use Rattle.lint_places.specs.Told.{reference_told, scope_told, set_told, target_part_told, target_told, told};
ghost use Rattle.lint_places.specs.Views.{Tells, scope_of};

use crate::arguments::arguments;
use crate::leaf::leaf;
use crate::members::list;
use crate::outcome::found;
use crate::part::Part;
use crate::scope::Scope;
use crate::surroundings::{judged, of_rules, of_target, plain_set};
use crate::told_expressions::{argument, body, condition, expression, function};
use crate::told_lists::{
    advice, all_ofs, any_ofs, assignments, children, matches, obligations, rules,
};
use ent_json::JsonTree;
use ent_polform::{raw_document, raw_policy, raw_reference, raw_set, raw_target};
use ent_policy::{CheckFault, DocFault, Kind, RawChild, RawDocument};
use ent_values::Items;
use std::alloc::{AllocError, Global};

/// The fault that is told of a part in a scope, if one is: the first fault of a document in which nothing else stands,
/// but for the variable definitions around the part. Names, versions and the like are judged by themselves.
///
/// # Errors
///
/// `AllocError` if memory runs out.
///
/// Its contract is an equation but for memory.
pub(crate) fn told<J: JsonTree>(
    alloc: Global,
    part: Part,
    scope: &Scope<'_, J>,
    json: &J,
) -> Result<Option<DocFault>, AllocError>
    ensures { IfOk result (λ t. t ≡ told part (scope_of J.content scope.now) (J.content json.now)) }
{
    found(document_part(alloc, part, scope, json))
}

/// The fault that is told of the variables of a scope alone, if one is.
///
/// # Errors
///
/// `AllocError` if memory runs out.
///
/// Its contract is an equation but for memory.
pub(crate) fn scope_told<J: JsonTree>(
    alloc: Global,
    scope: &Scope<'_, J>,
) -> Result<Option<DocFault>, AllocError>
    ensures { IfOk result (λ t. t ≡ scope_told (scope_of J.content scope.now)) }
{
    found(variables(alloc, scope))
}

/// Judges the variables of a scope, if it has any.
#[tactic(auto, unfolding(crate::specs::Told::scope_told))]
fn variables<J: JsonTree>(alloc: Global, scope: &Scope<'_, J>) -> Result<(), CheckFault>
    ensures { Tells result (scope_told (scope_of J.content scope.now)) }
{
    if scope.definitions.is_empty() {
        return Ok(());
    }
    let variables = scope.variables(alloc)?;
    judged(alloc, of_rules(alloc, Items::new(alloc), variables)?)
}

/// Judges the definition that is set aside, with those to which it leads.
#[tactic(auto, unfolding(crate::specs::Told::definition_told))]
fn definition<J: JsonTree>(alloc: Global, scope: &Scope<'_, J>) -> Result<(), CheckFault>
    ensures { Tells result (definition_told (scope_of J.content scope.now)) }
{
    let variables = scope.definition(alloc)?;
    judged(alloc, of_rules(alloc, Items::new(alloc), variables)?)
}

/// Judges definitions as they stand.
#[tactic(auto, unfolding(crate::specs::Told::definitions_told))]
fn definitions<J: JsonTree>(alloc: Global, values: &[J]) -> Result<(), CheckFault>
    ensures { Tells result (definitions_told (map J.content values.now)) }
{
    let scope = Scope {
        definitions: values,
        aside: None,
        standing: Vec::new(alloc),
        clear: false,
    };
    variables(alloc, &scope)
}

/// Judges a document.
fn document<J: JsonTree>(alloc: Global, json: &J) -> Result<(), CheckFault>
    ensures { Tells result (first_fault (raw_of (J.content json.now))) }
{
    judged(alloc, raw_document(alloc, json)?)
}

/// Judges a policy.
#[tactic(auto, unfolding(crate::specs::Told::policy_told))]
fn policy<J: JsonTree>(alloc: Global, json: &J) -> Result<(), CheckFault>
    ensures { Tells result (policy_told (J.content json.now)) }
{
    judged(alloc, RawDocument::Policy(raw_policy(alloc, json)?))
}

/// Judges a policy set.
#[tactic(auto, unfolding(crate::specs::Told::set_told))]
fn set<J: JsonTree>(alloc: Global, json: &J) -> Result<(), CheckFault>
    ensures { Tells result (set_told (J.content json.now)) }
{
    judged(alloc, RawDocument::Set(raw_set(alloc, json)?))
}

/// Judges a reference.
#[tactic(auto, unfolding(crate::specs::Told::reference_told))]
fn reference<J: JsonTree>(alloc: Global, kind: Kind, json: &J) -> Result<(), CheckFault>
    ensures { Tells result (reference_told kind (J.content json.now)) }
{
    let reference = RawChild::Reference(raw_reference(alloc, kind, json)?);
    judged(alloc, plain_set(alloc, Items::of_one(alloc, reference)?)?)
}

/// Judges a target.
#[tactic(auto, unfolding(crate::specs::Told::target_told))]
fn target<J: JsonTree>(alloc: Global, scope: &Scope<'_, J>, json: &J) -> Result<(), CheckFault>
    ensures { Tells result (target_told (scope_of J.content scope.now) (J.content json.now)) }
{
    let target = raw_target(alloc, json)?;
    let variables = scope.variables(alloc)?;
    judged(alloc, of_target(alloc, target, variables)?)
}

/// Judges a part: a document, a set's children, rules, definitions, or what stands in them.
#[tactic(auto, unfolding(crate::specs::Told::told))]
fn document_part<J: JsonTree>(
    alloc: Global,
    part: Part,
    scope: &Scope<'_, J>,
    json: &J,
) -> Result<(), CheckFault>
    ensures { Tells result (told part (scope_of J.content scope.now) (J.content json.now)) }
{
    match part {
        Part::Document => document(alloc, json),
        Part::Policy => policy(alloc, json),
        Part::Set => set(alloc, json),
        Part::Children => children(alloc, list(json).ok_or(DocFault::Form)?),
        Part::Child => children(alloc, json.as_one()),
        Part::PolicyReference => reference(alloc, Kind::Policy, json),
        Part::SetReference => reference(alloc, Kind::PolicySet, json),
        Part::Rules => rules(alloc, scope, list(json).ok_or(DocFault::Form)?),
        Part::Rule => rules(alloc, scope, json.as_one()),
        Part::Definitions => definitions(alloc, list(json).ok_or(DocFault::Form)?),
        Part::Definition => definition(alloc, scope),
        _ => target_part(alloc, part, scope, json),
    }
}

/// Judges a target or a part of one, or what stands in other parts.
#[tactic(auto, unfolding(crate::specs::Told::target_part_told))]
fn target_part<J: JsonTree>(
    alloc: Global,
    part: Part,
    scope: &Scope<'_, J>,
    json: &J,
) -> Result<(), CheckFault>
    ensures { Tells result (target_part_told part (scope_of J.content scope.now) (J.content json.now)) }
{
    match part {
        Part::Target => target(alloc, scope, json),
        Part::AnyOfs => any_ofs(alloc, scope, list(json).ok_or(DocFault::Form)?),
        Part::AnyOf => any_ofs(alloc, scope, json.as_one()),
        Part::AllOfs => all_ofs(alloc, scope, list(json).ok_or(DocFault::Form)?),
        Part::AllOf => all_ofs(alloc, scope, json.as_one()),
        Part::Matches => matches(alloc, scope, list(json).ok_or(DocFault::Form)?),
        Part::Match => matches(alloc, scope, json.as_one()),
        _ => expression_part(alloc, part, scope, json),
    }
}

/// Judges an expression or a part of one, or what stands in other parts.
#[tactic(auto, unfolding(crate::specs::Told::expression_told))]
fn expression_part<J: JsonTree>(
    alloc: Global,
    part: Part,
    scope: &Scope<'_, J>,
    json: &J,
) -> Result<(), CheckFault>
    ensures { Tells result (expression_told part (scope_of J.content scope.now) (J.content json.now)) }
{
    match part {
        Part::Condition => condition(alloc, scope, json),
        Part::Expression => expression(alloc, scope, json),
        Part::Arguments => arguments(alloc, scope, list(json).ok_or(DocFault::Form)?),
        Part::Argument => argument(alloc, scope, json),
        Part::Value => body(alloc, scope, "AttributeValue", json),
        Part::Designator => body(alloc, scope, "AttributeDesignator", json),
        Part::VariableReference => body(alloc, scope, "VariableReference", json),
        Part::Apply => body(alloc, scope, "Apply", json),
        Part::FunctionReference => function(alloc, json),
        _ => given_part(alloc, part, scope, json),
    }
}

/// Judges obligations, advice or their assignments, or a leaf.
#[tactic(auto, unfolding(crate::specs::Told::given_told))]
fn given_part<J: JsonTree>(
    alloc: Global,
    part: Part,
    scope: &Scope<'_, J>,
    json: &J,
) -> Result<(), CheckFault>
    ensures { Tells result (given_told part (scope_of J.content scope.now) (J.content json.now)) }
{
    match part {
        Part::Obligations => obligations(alloc, scope, list(json).ok_or(DocFault::Form)?),
        Part::Obligation => obligations(alloc, scope, json.as_one()),
        Part::Advices => advice(alloc, scope, list(json).ok_or(DocFault::Form)?),
        Part::Advice => advice(alloc, scope, json.as_one()),
        Part::Assignments => assignments(alloc, scope, list(json).ok_or(DocFault::Form)?),
        Part::Assignment => assignments(alloc, scope, json.as_one()),
        _ => leaf(part, json),
    }
}
