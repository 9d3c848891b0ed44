//! Targets and their matches, as the form has them.

ghost use Rattle.std.specs.Prelude.{◌≡◌, codes, map};
ghost use Rattle.serde_json.specs.Find.{get};
ghost use Rattle.serde_json.specs.View.{items_of};
ghost use Rattle.ent_policy.specs.Gives.{Gives};
ghost use Rattle.ent_polform.specs.Objects.{each_by};
ghost use Rattle.ent_polform.specs.Targets.{match_of, one_all_of, one_any_of, target_of, target_or_empty};

use crate::expression::{attribute_value, designator};
use crate::objects::required;
use ent_json::{JsonTree, filled_list_at, list_at};
use ent_policy::{CheckFault, DocFault, RawAllOf, RawAnyOf, RawMatch, RawTarget};
use ent_values::Items;
use std::alloc::Global;

/// A Match (section 5.9), as read. The only fault that is found here is one of its form.
///
/// Its contract is an equation but for memory.
#[tactic(auto, unfolding(crate::specs::Targets::match_of))]
pub fn one_match<J: JsonTree>(alloc: Global, object: &J) -> Result<RawMatch, CheckFault>
    ensures { Gives result (match_of (J.content object.now)) }
{
    if !object.has_only(&["AttributeDesignator", "AttributeValue", "MatchId"]) {
        return Err(CheckFault::Doc(DocFault::Form));
    }
    let function = required(alloc, object, "MatchId")?;
    let value = object.get("AttributeValue").ok_or(DocFault::Form)?;
    let literal = attribute_value(alloc, value)?;
    let named = object.get("AttributeDesignator").ok_or(DocFault::Form)?;
    let designator = designator(alloc, named)?;
    Ok(RawMatch {
        function,
        literal,
        designator,
    })
}

/// Matches, one for each value.
fn matches<J: JsonTree>(alloc: Global, values: &[J]) -> Result<Items<RawMatch>, CheckFault>
    ensures { Gives result (each_by match_of (items_of (map J.content values.now))) }
{
    let mut all = Items::with_capacity(alloc, values.len())?;
    for value in values {
        all.push(one_match(alloc, value)?)?;
    }
    Ok(all)
}

/// A member of AllOf (section 5.8), as read. The only fault that is found here is one of its form.
///
/// Its contract is an equation but for memory.
#[tactic(auto, unfolding(crate::specs::Targets::one_all_of))]
pub fn all_of<J: JsonTree>(alloc: Global, object: &J) -> Result<RawAllOf, CheckFault>
    ensures { Gives result (one_all_of (J.content object.now)) }
{
    if !object.has_only(&["Match"]) {
        return Err(CheckFault::Doc(DocFault::Form));
    }
    let values = filled_list_at(object, "Match").ok_or(DocFault::Form)?;
    let matches = matches(alloc, values)?;
    Ok(RawAllOf { matches })
}

/// Members of AllOf, one for each value.
fn all_of_list<J: JsonTree>(alloc: Global, values: &[J]) -> Result<Items<RawAllOf>, CheckFault>
    ensures { Gives result (each_by one_all_of (items_of (map J.content values.now))) }
{
    let mut all = Items::with_capacity(alloc, values.len())?;
    for value in values {
        all.push(all_of(alloc, value)?)?;
    }
    Ok(all)
}

/// A member of AnyOf (section 5.7), as read. The only fault that is found here is one of its form.
///
/// Its contract is an equation but for memory.
#[tactic(auto, unfolding(crate::specs::Targets::one_any_of))]
pub fn any_of<J: JsonTree>(alloc: Global, object: &J) -> Result<RawAnyOf, CheckFault>
    ensures { Gives result (one_any_of (J.content object.now)) }
{
    if !object.has_only(&["AllOf"]) {
        return Err(CheckFault::Doc(DocFault::Form));
    }
    let values = filled_list_at(object, "AllOf").ok_or(DocFault::Form)?;
    let all_of = all_of_list(alloc, values)?;
    Ok(RawAnyOf { all_of })
}

/// Members of AnyOf, one for each value.
fn any_of_list<J: JsonTree>(alloc: Global, values: &[J]) -> Result<Items<RawAnyOf>, CheckFault>
    ensures { Gives result (each_by one_any_of (items_of (map J.content values.now))) }
{
    let mut all = Items::with_capacity(alloc, values.len())?;
    for value in values {
        all.push(any_of(alloc, value)?)?;
    }
    Ok(all)
}

/// A Target (section 5.6), as read. The only fault that is found here is one of its form.
///
/// Its contract is an equation but for memory.
#[tactic(auto, unfolding(crate::specs::Targets::target_of))]
pub fn target<J: JsonTree>(alloc: Global, object: &J) -> Result<RawTarget, CheckFault>
    ensures { Gives result (target_of (J.content object.now)) }
{
    if !object.has_only(&["AnyOf"]) {
        return Err(CheckFault::Doc(DocFault::Form));
    }
    let values = list_at(object, "AnyOf").ok_or(DocFault::Form)?;
    let any_of = any_of_list(alloc, values)?;
    Ok(RawTarget { any_of })
}

/// The Target of a rule or a policy, empty where there is none.
pub(crate) fn target_at<J: JsonTree>(alloc: Global, object: &J) -> Result<RawTarget, CheckFault>
    ensures { Gives result (target_or_empty (get (codes "Target") (J.content object.now))) }
{
    match object.get("Target") {
        None => Ok(RawTarget {
            any_of: Items::new(alloc),
        }),
        Some(value) => target(alloc, value),
    }
}
