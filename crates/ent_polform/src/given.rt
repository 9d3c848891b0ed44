//! Obligation expressions and advice expressions, as the form has them.

ghost use Rattle.std.specs.Prelude.{◌≡◌, map};
ghost use Rattle.serde_json.specs.View.{items_of};
ghost use Rattle.ent_policy.specs.Gives.{Gives};
ghost use Rattle.ent_polform.specs.Given.{assignment_of, effect_of, given_by, given_of};
ghost use Rattle.ent_polform.specs.Objects.{each_by};

use crate::expression::expression;
use crate::objects::{optional, required};
use ent_json::{JsonTree, list_at, text_at};
use ent_policy::{
    CheckFault, DocFault, Effect, RawAssignment, RawGivenExpression, RawGivenExpressions,
};
use ent_values::Items;
use std::alloc::Global;

/// The effect of that name.
pub(crate) fn effect(word: &str) -> Option<Effect>
    ensures { result ≡ effect_of word.now }
{
    if word == "Permit" {
        return Some(Effect::Permit);
    }
    if word == "Deny" {
        return Some(Effect::Deny);
    }
    None
}

/// An AttributeAssignmentExpression (section 5.41), as read. The only fault that is found here is one of its form.
///
/// Its contract is an equation but for memory.
#[tactic(auto, unfolding(crate::specs::Given::assignment_of))]
pub fn assignment<J: JsonTree>(alloc: Global, object: &J) -> Result<RawAssignment, CheckFault>
    ensures { Gives result (assignment_of (J.content object.now)) }
{
    let keys = ["AttributeId", "Category", "Expression", "Issuer"];
    if !object.has_only(&keys) {
        return Err(CheckFault::Doc(DocFault::Form));
    }
    let attribute = required(alloc, object, "AttributeId")?;
    let category = optional(alloc, object, "Category")?;
    let issuer = optional(alloc, object, "Issuer")?;
    let value = object.get("Expression").ok_or(DocFault::Form)?;
    let expression = expression(alloc, value)?;
    Ok(RawAssignment {
        attribute,
        category,
        issuer,
        expression,
    })
}

/// AttributeAssignmentExpressions, one for each value.
fn assignments<J: JsonTree>(alloc: Global, values: &[J]) -> Result<Items<RawAssignment>, CheckFault>
    ensures { Gives result (each_by assignment_of (items_of (map J.content values.now))) }
{
    let mut all = Items::with_capacity(alloc, values.len())?;
    for value in values {
        all.push(assignment(alloc, value)?)?;
    }
    Ok(all)
}

/// An ObligationExpression (section 5.39) or an AdviceExpression (section 5.40), by the keys of its id and of its
/// effect, as read. The only fault that is found here is one of its form.
///
/// Its contract is an equation but for memory.
#[tactic(auto, unfolding(crate::specs::Given::given_by))]
pub fn given_expression<J: JsonTree>(
    alloc: Global,
    object: &J,
    id_key: &str,
    effect_key: &str,
) -> Result<RawGivenExpression, CheckFault>
    ensures { Gives result (given_by id_key.now effect_key.now (J.content object.now)) }
{
    let keys = ["AttributeAssignmentExpression", effect_key, id_key];
    if !object.has_only(&keys) {
        return Err(CheckFault::Doc(DocFault::Form));
    }
    let id = required(alloc, object, id_key)?;
    let effect = text_at(object, effect_key)
        .and_then(effect)
        .ok_or(DocFault::Form)?;
    let listed = list_at(object, "AttributeAssignmentExpression").ok_or(DocFault::Form)?;
    let assignments = assignments(alloc, listed)?;
    Ok(RawGivenExpression {
        id,
        effect,
        assignments,
    })
}

/// ObligationExpressions or AdviceExpressions, one for each value.
fn given_expressions<J: JsonTree>(
    alloc: Global,
    values: &[J],
    id_key: &str,
    effect_key: &str,
) -> Result<Items<RawGivenExpression>, CheckFault>
    ensures { Gives result (each_by (given_by id_key.now effect_key.now) (items_of (map J.content values.now))) }
{
    let mut all = Items::with_capacity(alloc, values.len())?;
    for value in values {
        all.push(given_expression(alloc, value, id_key, effect_key)?)?;
    }
    Ok(all)
}

/// The ObligationExpressions and the AdviceExpressions of a rule, a policy or a set.
#[tactic(auto, unfolding(crate::specs::Given::given_of))]
pub(crate) fn given_at<J: JsonTree>(
    alloc: Global,
    object: &J,
) -> Result<RawGivenExpressions, CheckFault>
    ensures { Gives result (given_of (J.content object.now)) }
{
    let listed = list_at(object, "ObligationExpressions").ok_or(DocFault::Form)?;
    let obligations = given_expressions(alloc, listed, "ObligationId", "FulfillOn")?;
    let listed = list_at(object, "AdviceExpressions").ok_or(DocFault::Form)?;
    let advice = given_expressions(alloc, listed, "AdviceId", "AppliesTo")?;
    Ok(RawGivenExpressions {
        obligations,
        advice,
    })
}
