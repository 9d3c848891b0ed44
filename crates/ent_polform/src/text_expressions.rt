//! Expressions, written straight into a text.

ghost use Rattle.std.specs.Prelude.{◌≡◌, ◌++◌, OnOk, codes, map, option_map};
ghost use Rattle.serde_json.specs.Data as json;
ghost use Rattle.ent_functions.specs.Identifiers.{id_of};
ghost use Rattle.ent_json.specs.Members.{filled_list, only_member};
ghost use Rattle.ent_json.specs.Text.{tokens_of};
ghost use Rattle.ent_json.specs.proofs_only.Keyed.{optional_tokens};
ghost use Rattle.ent_json.specs.proofs_only.Text.{items_tokens_of};
ghost use Rattle.ent_polform.specs.Written.{apply_written, designator_written, expression_written, literal_written};

use crate::text_values::{write_designator, write_literal};
use ent_functions::Function;
use ent_json::{JsonText, write_text};
use ent_policy::{Designator, Expression};
use ent_values::Value;
use std::alloc::{AllocError, Global};

/// Writes an AttributeValue as the only member of an object.
fn write_value(alloc: Global, out: &mut JsonText, value: &Value) -> Result<(), AllocError>
    ensures { OnOk result (out.new ≡ out.old ++ tokens_of (only_member (codes "AttributeValue") (literal_written value.now))) }
{
    out.begin_object()?;
    out.key("AttributeValue")?;
    write_literal(alloc, out, value)?;
    out.end_object()
}

/// Writes an AttributeDesignator as the only member of an object.
fn write_named(out: &mut JsonText, named: &Designator) -> Result<(), AllocError>
    ensures { OnOk result (out.new
        ≡ out.old ++ tokens_of (only_member (codes "AttributeDesignator") (designator_written named.now))) }
{
    out.begin_object()?;
    out.key("AttributeDesignator")?;
    write_designator(out, named)?;
    out.end_object()
}

/// Writes a VariableReference as the only member of an object.
fn write_variable(out: &mut JsonText, id: &str) -> Result<(), AllocError>
    ensures { OnOk result (out.new ≡ out.old
        ++ tokens_of (only_member (codes "VariableReference") (only_member (codes "VariableId") (json.string id.now)))) }
{
    out.begin_object()?;
    out.key("VariableReference")?;
    out.begin_object()?;
    write_text(out, "VariableId", id)?;
    out.end_object()?;
    out.end_object()
}

/// Writes a Function as the only member of an object.
fn write_function(alloc: Global, out: &mut JsonText, function: Function) -> Result<(), AllocError>
    ensures { OnOk result (out.new ≡ out.old
        ++ tokens_of (only_member (codes "Function") (only_member (codes "FunctionId") (json.string (id_of function))))) }
{
    let id = function.id(alloc)?;
    out.begin_object()?;
    out.key("Function")?;
    out.begin_object()?;
    write_text(out, "FunctionId", id.as_str())?;
    out.end_object()?;
    out.end_object()
}

/// Writes an expression.
#[cycle(expression)]
#[tactic(auto, using(crate::proofs::WrittenLemmas::apply_is_written))]
pub(crate) fn write_expression(
    alloc: Global,
    out: &mut JsonText,
    expression: &Expression,
) -> Result<(), AllocError>
    ensures { OnOk result (out.new ≡ out.old ++ tokens_of (expression_written expression.now)) }
{
    match expression {
        Expression::Value(value) => write_value(alloc, out, value),
        Expression::Designator(named) => write_named(out, named),
        Expression::Variable(id) => write_variable(out, id.as_str()),
        Expression::Apply(function, arguments) => {
            write_apply(alloc, out, *function, arguments.as_slice())
        }
        Expression::Function(function) => write_function(alloc, out, *function),
    }
}

/// Writes expressions, to the end of their list.
#[cycle(expression)]
fn write_each(alloc: Global, out: &mut JsonText, all: &[Expression]) -> Result<(), AllocError>
    ensures { OnOk result (out.new ≡ out.old ++ items_tokens_of (map expression_written all.now)) }
{
    for one in all {
        write_expression(alloc, out, one)?;
    }
    out.end_array()
}

/// Writes the arguments of an Apply at their key, if there are some.
#[cycle(expression)]
fn write_arguments(
    alloc: Global,
    out: &mut JsonText,
    arguments: &[Expression],
) -> Result<(), AllocError>
    ensures { OnOk result (out.new
        ≡ out.old ++ optional_tokens (codes "Arguments") (filled_list (map expression_written arguments.now))) }
{
    if arguments.is_empty() {
        return Ok(());
    }
    out.key("Arguments")?;
    out.begin_array()?;
    write_each(alloc, out, arguments)
}

/// Writes the arguments and the id of an Apply.
#[cycle(expression)]
fn write_applied(
    alloc: Global,
    out: &mut JsonText,
    function: Function,
    arguments: &[Expression],
) -> Result<(), AllocError>
    ensures { OnOk result (out.new
        ≡ out.old ++ tokens_of (apply_written function (map expression_written arguments.now))) }
{
    let id = function.id(alloc)?;
    out.begin_object()?;
    write_arguments(alloc, out, arguments)?;
    write_text(out, "FunctionId", id.as_str())?;
    out.end_object()
}

/// Writes an Apply as the only member of an object.
#[cycle(expression)]
fn write_apply(
    alloc: Global,
    out: &mut JsonText,
    function: Function,
    arguments: &[Expression],
) -> Result<(), AllocError>
    ensures { OnOk result (out.new ≡ out.old
        ++ tokens_of (only_member (codes "Apply") (apply_written function (map expression_written arguments.now)))) }
{
    out.begin_object()?;
    out.key("Apply")?;
    write_applied(alloc, out, function, arguments)?;
    out.end_object()
}

/// Writes the condition of a rule at its key, where there is one.
pub(crate) fn write_condition(
    alloc: Global,
    out: &mut JsonText,
    condition: &Option<Expression>,
) -> Result<(), AllocError>
    ensures { OnOk result (out.new
        ≡ out.old ++ optional_tokens (codes "Condition") (option_map expression_written condition.now)) }
{
    match condition {
        None => Ok(()),
        Some(whole) => {
            out.key("Condition")?;
            write_expression(alloc, out, whole)
        }
    }
}
