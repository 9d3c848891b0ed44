//! Obligation expressions and advice expressions, written straight into a text.

ghost use Rattle.std.specs.Prelude.{◌≡◌, ◌++◌, OnOk, codes, map};
ghost use Rattle.ent_json.specs.Members.{filled_list};
ghost use Rattle.ent_json.specs.Text.{tokens_of};
ghost use Rattle.ent_json.specs.proofs_only.Keyed.{optional_tokens};
ghost use Rattle.ent_json.specs.proofs_only.Text.{items_tokens_of};
ghost use Rattle.ent_polform.specs.Written.{advice_written, assignment_written, effect_word, given_written};
ghost use Rattle.ent_polform.specs.Written.{obligations_written};

use crate::text_expressions::write_expression;
use ent_json::{JsonText, write_optional, write_text};
use ent_policy::{AssignmentExpression, Effect, GivenExpression, GivenExpressions};
use std::alloc::{AllocError, Global};

/// The word of an effect.
pub(crate) fn effect_word(effect: Effect) -> &'static str
    ensures { result.now ≡ effect_word effect }
{
    match effect {
        Effect::Permit => "Permit",
        Effect::Deny => "Deny",
    }
}

/// Writes an AttributeAssignmentExpression.
fn write_assignment(
    alloc: Global,
    out: &mut JsonText,
    assignment: &AssignmentExpression,
) -> Result<(), AllocError>
    ensures { OnOk result (out.new ≡ out.old ++ tokens_of (assignment_written assignment.now)) }
{
    out.begin_object()?;
    write_text(out, "AttributeId", assignment.attribute.as_str())?;
    write_optional(out, "Category", &assignment.category)?;
    out.key("Expression")?;
    write_expression(alloc, out, &assignment.expression)?;
    write_optional(out, "Issuer", &assignment.issuer)?;
    out.end_object()
}

/// Writes AttributeAssignmentExpressions, to the end of their list.
fn write_each_assignment(
    alloc: Global,
    out: &mut JsonText,
    all: &[AssignmentExpression],
) -> Result<(), AllocError>
    ensures { OnOk result (out.new ≡ out.old ++ items_tokens_of (map assignment_written all.now)) }
{
    for one in all {
        write_assignment(alloc, out, one)?;
    }
    out.end_array()
}

/// Writes AttributeAssignmentExpressions at their key, if there are some.
fn write_assignments(
    alloc: Global,
    out: &mut JsonText,
    all: &[AssignmentExpression],
) -> Result<(), AllocError>
    ensures { OnOk result (out.new
        ≡ out.old ++ optional_tokens (codes "AttributeAssignmentExpression") (filled_list (map assignment_written all.now))) }
{
    if all.is_empty() {
        return Ok(());
    }
    out.key("AttributeAssignmentExpression")?;
    out.begin_array()?;
    write_each_assignment(alloc, out, all)
}

/// Writes an ObligationExpression.
fn write_obligation(
    alloc: Global,
    out: &mut JsonText,
    given: &GivenExpression,
) -> Result<(), AllocError>
    ensures { OnOk result (out.new
        ≡ out.old ++ tokens_of (given_written (codes "ObligationId") (codes "FulfillOn") given.now)) }
{
    out.begin_object()?;
    write_assignments(alloc, out, given.assignments.as_slice())?;
    write_text(out, "FulfillOn", effect_word(given.effect))?;
    write_text(out, "ObligationId", given.id.as_str())?;
    out.end_object()
}

/// Writes ObligationExpressions, to the end of their list.
fn write_each_obligation(
    alloc: Global,
    out: &mut JsonText,
    all: &[GivenExpression],
) -> Result<(), AllocError>
    ensures { OnOk result (out.new
        ≡ out.old ++ items_tokens_of (map (given_written (codes "ObligationId") (codes "FulfillOn")) all.now)) }
{
    for one in all {
        write_obligation(alloc, out, one)?;
    }
    out.end_array()
}

/// Writes the ObligationExpressions at their key, if there are some.
pub(crate) fn write_obligations(
    alloc: Global,
    out: &mut JsonText,
    given: &GivenExpressions,
) -> Result<(), AllocError>
    ensures { OnOk result (out.new
        ≡ out.old ++ optional_tokens (codes "ObligationExpressions") (obligations_written given.now)) }
{
    let all = given.obligations.as_slice();
    if all.is_empty() {
        return Ok(());
    }
    out.key("ObligationExpressions")?;
    out.begin_array()?;
    write_each_obligation(alloc, out, all)
}

/// Writes an AdviceExpression.
fn write_one_advice(
    alloc: Global,
    out: &mut JsonText,
    given: &GivenExpression,
) -> Result<(), AllocError>
    ensures { OnOk result (out.new
        ≡ out.old ++ tokens_of (given_written (codes "AdviceId") (codes "AppliesTo") given.now)) }
{
    out.begin_object()?;
    write_text(out, "AdviceId", given.id.as_str())?;
    write_text(out, "AppliesTo", effect_word(given.effect))?;
    write_assignments(alloc, out, given.assignments.as_slice())?;
    out.end_object()
}

/// Writes AdviceExpressions, to the end of their list.
fn write_each_advice(
    alloc: Global,
    out: &mut JsonText,
    all: &[GivenExpression],
) -> Result<(), AllocError>
    ensures { OnOk result (out.new
        ≡ out.old ++ items_tokens_of (map (given_written (codes "AdviceId") (codes "AppliesTo")) all.now)) }
{
    for one in all {
        write_one_advice(alloc, out, one)?;
    }
    out.end_array()
}

/// Writes the AdviceExpressions at their key, if there are some.
pub(crate) fn write_advice(
    alloc: Global,
    out: &mut JsonText,
    given: &GivenExpressions,
) -> Result<(), AllocError>
    ensures { OnOk result (out.new
        ≡ out.old ++ optional_tokens (codes "AdviceExpressions") (advice_written given.now)) }
{
    let all = given.advice.as_slice();
    if all.is_empty() {
        return Ok(());
    }
    out.key("AdviceExpressions")?;
    out.begin_array()?;
    write_each_advice(alloc, out, all)
}
