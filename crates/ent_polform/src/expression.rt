//! Expressions, as the form has them.

ghost use Rattle.std.specs.Prelude.{◌≡◌, codes, map};
ghost use Rattle.serde_json.specs.Find.{get};
ghost use Rattle.serde_json.specs.View.{items_of};
ghost use Rattle.ent_policy.specs.Gives.{Gives};
ghost use Rattle.ent_polform.specs.Expressions.{apply_by, designator_of, expression_by, expression_named};
ghost use Rattle.ent_polform.specs.Expressions.{expression_of, literal_of, name_of, value_of};
ghost use Rattle.ent_polform.specs.Objects.{each_by};
ghost use Rattle.ent_polform.specs.Reading.{maybe};

use crate::objects::{optional, required};
use ent_json::{JsonTree, flag_at, list_at};
use ent_policy::{CheckFault, DocFault, RawDesignator, RawExpression, RawLiteral, RawValue};
use ent_values::{Items, Text};
use std::alloc::Global;

/// A literal.
#[tactic(auto, using(crate::proofs::ScalarLemmas::literal_is))]
fn literal<J: JsonTree>(alloc: Global, value: &J) -> Result<RawLiteral, CheckFault>
    ensures { Gives result (literal_of (J.content value.now)) }
{
    if let Some(text) = value.as_str() {
        return Ok(RawLiteral::Text(Text::from_str(alloc, text)?));
    }
    if let Some(flag) = value.as_bool() {
        return Ok(RawLiteral::Boolean(flag));
    }
    let integer = value.as_i64().ok_or(DocFault::Form)?;
    Ok(RawLiteral::Integer(integer))
}

/// An AttributeValue (section 5.31), as read. The only fault that is found here is one of its form.
///
/// Its contract is an equation but for memory.
#[tactic(auto, unfolding(crate::specs::Expressions::value_of))]
pub(crate) fn attribute_value<J: JsonTree>(
    alloc: Global,
    object: &J,
) -> Result<RawValue, CheckFault>
    ensures { Gives result (value_of (J.content object.now)) }
{
    if !object.has_only(&["DataType", "Value"]) {
        return Err(CheckFault::Doc(DocFault::Form));
    }
    let datatype = optional(alloc, object, "DataType")?;
    let value = object.get("Value").ok_or(DocFault::Form)?;
    let literal = literal(alloc, value)?;
    Ok(RawValue { datatype, literal })
}

/// An AttributeDesignator (section 5.29), as read. The only fault that is found here is one of its form.
///
/// Its contract is an equation but for memory.
#[tactic(auto, unfolding(crate::specs::Expressions::designator_of))]
pub(crate) fn designator<J: JsonTree>(
    alloc: Global,
    object: &J,
) -> Result<RawDesignator, CheckFault>
    ensures { Gives result (designator_of (J.content object.now)) }
{
    let keys = [
        "AttributeId",
        "Category",
        "DataType",
        "Issuer",
        "MustBePresent",
    ];
    if !object.has_only(&keys) {
        return Err(CheckFault::Doc(DocFault::Form));
    }
    let category = required(alloc, object, "Category")?;
    let attribute = required(alloc, object, "AttributeId")?;
    let datatype = required(alloc, object, "DataType")?;
    let issuer = optional(alloc, object, "Issuer")?;
    let must_be_present = flag_at(object, "MustBePresent").ok_or(DocFault::Form)?;
    Ok(RawDesignator {
        category,
        attribute,
        datatype,
        issuer,
        must_be_present,
    })
}

/// The text at the only key of an object.
#[tactic(auto, unfolding(crate::specs::Expressions::name_of))]
fn name<J: JsonTree>(alloc: Global, object: &J, key: &str) -> Result<Text, CheckFault>
    ensures { Gives result (name_of key.now (J.content object.now)) }
{
    if !object.has_only(&[key]) {
        return Err(CheckFault::Doc(DocFault::Form));
    }
    required(alloc, object, key)
}

/// One level of an expression.
#[cycle(expression)]
fn nested_expression<J: JsonTree>(alloc: Global, json: &J) -> Result<RawExpression, CheckFault>
    ensures { Gives result (expression_by expression_of (J.content json.now)) }
{
    let Some((key, body)) = json.one_member() else {
        return Err(CheckFault::Doc(DocFault::Form));
    };
    named(alloc, key, body)
}

/// The expression that has that body at that key, as read. The only fault that is found here is one of its form.
///
/// Its contract is an equation but for memory.
#[cycle(expression)]
#[tactic(auto, unfolding(crate::specs::Expressions::expression_named))]
pub fn named<J: JsonTree>(alloc: Global, key: &str, body: &J) -> Result<RawExpression, CheckFault>
    ensures { Gives result (expression_named expression_of key.now (J.content body.now)) }
{
    if key == "AttributeValue" {
        return Ok(RawExpression::Value(attribute_value(alloc, body)?));
    }
    if key == "AttributeDesignator" {
        return Ok(RawExpression::Designator(designator(alloc, body)?));
    }
    if key == "VariableReference" {
        return Ok(RawExpression::Variable(name(alloc, body, "VariableId")?));
    }
    if key == "Apply" {
        return apply(alloc, body);
    }
    if key == "Function" {
        return Ok(RawExpression::Function(name(alloc, body, "FunctionId")?));
    }
    Err(CheckFault::Doc(DocFault::Form))
}

/// An Apply.
#[cycle(expression)]
#[tactic(auto, unfolding(crate::specs::Expressions::apply_by))]
fn apply<J: JsonTree>(alloc: Global, object: &J) -> Result<RawExpression, CheckFault>
    ensures { Gives result (apply_by expression_of (J.content object.now)) }
{
    if !object.has_only(&["Arguments", "FunctionId"]) {
        return Err(CheckFault::Doc(DocFault::Form));
    }
    let function = required(alloc, object, "FunctionId")?;
    let Some(values) = list_at(object, "Arguments") else {
        return Err(CheckFault::Doc(DocFault::Form));
    };
    let arguments = expressions(alloc, values)?;
    Ok(RawExpression::Apply(function, arguments))
}

/// Expressions, one for each value.
#[cycle(expression)]
fn expressions<J: JsonTree>(alloc: Global, values: &[J]) -> Result<Items<RawExpression>, CheckFault>
    ensures { Gives result (each_by expression_of (items_of (map J.content values.now))) }
{
    let mut all = Items::with_capacity(alloc, values.len())?;
    for value in values {
        all.push(nested_expression(alloc, value)?)?;
    }
    Ok(all)
}

/// An expression (section 5.25), as read. The only fault that is found here is one of its form.
///
/// Its contract is an equation but for memory.
pub fn expression<J: JsonTree>(alloc: Global, json: &J) -> Result<RawExpression, CheckFault>
    ensures { Gives result (expression_of (J.content json.now)) }
{
    nested_expression(alloc, json)
}

/// The Condition of a rule, where there is one.
pub(crate) fn condition_at<J: JsonTree>(
    alloc: Global,
    object: &J,
) -> Result<Option<RawExpression>, CheckFault>
    ensures { Gives result (maybe expression_of (get (codes "Condition") (J.content object.now))) }
{
    match object.get("Condition") {
        None => Ok(None),
        Some(value) => Ok(Some(expression(alloc, value)?)),
    }
}
