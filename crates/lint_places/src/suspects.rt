//! Which definitions may have a fault, as is seen of each apart from those to which it leads.

ghost use Rattle.std.specs.Prelude.{◌≡◌, ◌++◌, IfOk, map, not, true};
ghost use Rattle.std.specs.List.{flat_map, list_all};
ghost use Rattle.ent_policy.specs.proofs_only.Order.{has_id};
ghost use Rattle.lint_places.specs.Places.{is_fault};
ghost use Rattle.lint_places.specs.Views.{Tells};
ghost use Rattle.ent_policy.specs.declared.fault.DocFault.TheVariants.{Variable};
ghost use Rattle.lint_places.specs.proofs_only.Clear.{AreFree};
ghost use Rattle.lint_places.specs.proofs_only.Suspects.{AreSuspects, HasIds, MayBeUsing, lone_told, uses};

use crate::clear::is_later;
use crate::faulty::is_fault;
use crate::led::note;
use crate::outcome::{found, place};
use crate::reading::all;
use crate::surroundings::{judged, of_rules};
use ent_json::JsonTree;
use ent_polform::raw_definition;
use ent_policy::{
    CheckFault, DocFault, RawExpression, RawLiteral, RawValue, RawVariableDefinition,
};
use ent_values::{Items, Text};
use std::alloc::{AllocError, Global};
use std::collections::BTreeSet;

/// Judges a definition as the only one.
#[tactic(auto, unfolding(crate::specs::proofs_only::Suspects::lone_told))]
fn lone<J: JsonTree>(alloc: Global, json: &J) -> Result<(), CheckFault>
    ensures { Tells result (lone_told (J.content json.now)) }
{
    let definition = Items::of_one(alloc, raw_definition(alloc, json)?)?;
    judged(alloc, of_rules(alloc, Items::new(alloc), definition)?)
}

/// Of which definitions the fault is told where each is the only one.
fn alone_with<J: JsonTree>(
    alloc: Global,
    definitions: &[J],
    fault: DocFault,
) -> Result<Vec<bool>, AllocError>
    ensures { IfOk result (λ v. v.items ≡ map (λ d. is_fault fault (lone_told d)) (map J.content definitions.now)) }
{
    let mut flags = Vec::with_capacity(alloc, definitions.len())?;
    for json in definitions {
        flags.push(is_fault(fault, found(lone(alloc, json))?))?;
    }
    Ok(flags)
}

/// The ids of some definitions.
fn ids_of(
    alloc: Global,
    definitions: &[RawVariableDefinition],
) -> Result<BTreeSet<&str>, AllocError>
    ensures { IfOk result (λ s. HasIds definitions.now s) }
{
    let mut ids = BTreeSet::new(alloc);
    for definition in definitions {
        ids.insert(definition.id.as_str())?;
    }
    Ok(ids)
}

/// Whether an expression uses no other variables than these.
#[cycle(knows)]
fn knows(ids: &BTreeSet<&str>, expression: &RawExpression) -> bool
    ensures { result ≡ list_all (has_id ids.now) (uses expression.now) }
{
    match expression {
        RawExpression::Variable(id) => ids.contains(id.as_str()),
        RawExpression::Apply(_, arguments) => all_know(ids, arguments.as_slice()),
        _ => true,
    }
}

/// Whether some expressions use no other variables than these.
#[cycle(knows)]
fn all_know(ids: &BTreeSet<&str>, expressions: &[RawExpression]) -> bool
    ensures { result ≡ list_all (has_id ids.now) (flat_map (λ ids. ids) (map uses expressions.now)) }
{
    for expression in expressions {
        if !knows(ids, expression) {
            return false;
        }
    }
    true
}

/// Definitions of the variables that aren't defined, each as true.
fn stand_ins(
    alloc: Global,
    ids: &BTreeSet<&str>,
    definitions: &[RawVariableDefinition],
) -> Result<Items<RawVariableDefinition>, AllocError> {
    let mut used = BTreeSet::new(alloc);
    for definition in definitions {
        note(&definition.expression, &mut used)?;
    }
    let mut all = Items::new(alloc);
    for id in &used {
        if !ids.contains(*id) {
            all.push(as_true(alloc, *id)?)?;
        }
    }
    Ok(all)
}

/// A definition of a variable as true.
fn as_true(alloc: Global, id: &str) -> Result<RawVariableDefinition, AllocError> {
    Ok(RawVariableDefinition {
        id: Text::from_str(alloc, id)?,
        expression: RawExpression::Value(RawValue {
            datatype: None,
            literal: RawLiteral::Boolean(true),
        }),
    })
}

/// Whether it is seen that each definition leads to an end, but for variables that aren't defined: beside others that
/// define these, nothing is told of them up to a fault of variables.
fn ends(
    alloc: Global,
    definitions: Items<RawVariableDefinition>,
    others: Items<RawVariableDefinition>,
) -> Result<bool, AllocError>
    ensures { IfOk result (λ b. b ≡ true → AreFree Variable (definitions ++ others)) }
{
    let mut all = definitions;
    all.append(others)?;
    let document = of_rules(alloc, Items::new(alloc), all)?;
    Ok(is_later(DocFault::Variable, found(judged(alloc, document))?))
}

/// Which definitions use a variable that isn't defined.
fn using_others(
    alloc: Global,
    ids: &BTreeSet<&str>,
    definitions: &[RawVariableDefinition],
) -> Result<Vec<bool>, AllocError>
    ensures { IfOk result (λ v. v.items
        ≡ map (λ d. not (list_all (has_id ids.now) (uses d.expression))) definitions.now) }
{
    let mut flags = Vec::with_capacity(alloc, definitions.len())?;
    for definition in definitions {
        flags.push(!knows(ids, &definition.expression))?;
    }
    Ok(flags)
}

/// Which definitions use a variable that isn't defined, if it is seen that each leads to an end but for those.
fn with_undefined<J: JsonTree>(alloc: Global, definitions: &[J]) -> Result<Vec<bool>, CheckFault>
    ensures { IfOk result (λ v. MayBeUsing (map J.content definitions.now) v.items) }
{
    let held = all(alloc, definitions)?;
    let again = all(alloc, definitions)?;
    let ids = ids_of(alloc, held.as_slice())?;
    let others = stand_ins(alloc, &ids, held.as_slice())?;
    if ends(alloc, again, others)? {
        Ok(using_others(alloc, &ids, held.as_slice())?)
    } else {
        Ok(Vec::new(alloc))
    }
}

/// Which definitions use a variable that isn't defined; none is told where one can't be read.
fn undefined<J: JsonTree>(alloc: Global, definitions: &[J]) -> Result<Vec<bool>, AllocError>
    ensures { IfOk result (λ v. MayBeUsing (map J.content definitions.now) v.items) }
{
    match with_undefined(alloc, definitions) {
        Ok(flags) => Ok(flags),
        Err(CheckFault::Doc(_)) => Ok(Vec::new(alloc)),
        Err(CheckFault::Memory) => Err(AllocError),
    }
}

/// Which definitions may have the fault, as is seen of each apart from those to which it leads; behind the end of the
/// list each may.
pub(crate) fn suspects<J: JsonTree>(
    alloc: Global,
    definitions: &[J],
    fault: DocFault,
) -> Result<Vec<bool>, AllocError>
    ensures { IfOk result (λ v. AreSuspects fault (map J.content definitions.now) v.items) }
{
    if place(fault) < place(DocFault::Variable) {
        return alone_with(alloc, definitions, fault);
    }
    match fault {
        DocFault::Variable => undefined(alloc, definitions),
        _ => Ok(Vec::new(alloc)),
    }
}
