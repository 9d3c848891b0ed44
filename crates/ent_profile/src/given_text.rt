//! Obligations and advice, written straight into a text.

ghost use Rattle.std.specs.Prelude.{◌≡◌, ◌++◌, OnOk, map};
ghost use Rattle.serde_json.specs.Data as json;
ghost use Rattle.serde_json.specs.View.{items_of};
ghost use Rattle.ent_json.specs.Text.{tokens_of};
ghost use Rattle.ent_json.specs.proofs_only.Text.{items_tokens_of};
ghost use Rattle.ent_profile.specs.Response.{assignment_written, given_written};

use ent_json::{JsonText, write_optional, write_text};
use ent_polform::write_value_text;
use ent_request::{Assignment, Given};
use std::alloc::{AllocError, Global};

/// Writes an AttributeAssignment.
fn write_assignment(
    alloc: Global,
    out: &mut JsonText,
    assignment: &Assignment,
) -> Result<(), AllocError>
    ensures { OnOk result (out.new ≡ out.old ++ tokens_of (assignment_written assignment.now)) }
{
    out.begin_object()?;
    write_text(out, "AttributeId", assignment.attribute.as_str())?;
    write_optional(out, "Category", &assignment.category)?;
    write_text(out, "DataType", assignment.value.datatype().uri())?;
    write_optional(out, "Issuer", &assignment.issuer)?;
    out.key("Value")?;
    write_value_text(alloc, out, &assignment.value)?;
    out.end_object()
}

/// Writes AttributeAssignments, to the end of their list.
fn write_assignments(
    alloc: Global,
    out: &mut JsonText,
    assignments: &[Assignment],
) -> Result<(), AllocError>
    ensures { OnOk result (out.new ≡ out.old ++ items_tokens_of (map assignment_written assignments.now)) }
{
    for assignment in assignments {
        write_assignment(alloc, out, assignment)?;
    }
    out.end_array()
}

/// Writes an obligation or an advice.
fn write_one(alloc: Global, out: &mut JsonText, given: &Given) -> Result<(), AllocError>
    ensures { OnOk result (out.new ≡ out.old ++ tokens_of (given_written given.now)) }
{
    out.begin_object()?;
    out.key("AttributeAssignment")?;
    out.begin_array()?;
    write_assignments(alloc, out, given.assignments.as_slice())?;
    write_text(out, "Id", given.id.as_str())?;
    out.end_object()
}

/// Writes obligations or advice, to the end of their list.
fn write_each(alloc: Global, out: &mut JsonText, given: &[Given]) -> Result<(), AllocError>
    ensures { OnOk result (out.new ≡ out.old ++ items_tokens_of (map given_written given.now)) }
{
    for one in given {
        write_one(alloc, out, one)?;
    }
    out.end_array()
}

/// Writes the list of obligations or of advice into a text, as [`write_given`](crate::write_given) has it.
///
/// # Errors
///
/// `AllocError` if memory runs out; a front of the list may have been written.
///
/// Its contract is an equation but for memory.
pub fn write_given_text(
    alloc: Global,
    out: &mut JsonText,
    given: &[Given],
) -> Result<(), AllocError>
    ensures { OnOk result (out.new ≡ out.old ++ tokens_of (json.array (items_of (map given_written given.now)))) }
{
    out.begin_array()?;
    write_each(alloc, out, given)
}
