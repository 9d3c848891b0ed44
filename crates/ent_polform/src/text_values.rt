//! Values and attribute designators, written straight into a text.

ghost use Rattle.std.specs.Prelude.{◌≡◌, ◌++◌, OnOk};
ghost use Rattle.ent_json.specs.Text.{tokens_of};
ghost use Rattle.ent_polform.specs.Written.{designator_written, literal_written, value_written};

use ent_json::{JsonText, write_optional, write_text};
use ent_policy::Designator;
use ent_values::Value;
use std::alloc::{AllocError, Global};

/// Writes a value as [`crate::write_value`] has it: an integer as a number, a boolean as a boolean, every other value
/// as its written text.
///
/// # Errors
///
/// `AllocError` if memory runs out.
///
/// Its contract is an equation but for memory.
#[tactic(auto, unfolding(crate::specs::Written::value_written), using(crate::proofs::TextLemmas::integer_tokens))]
pub fn write_value_text(alloc: Global, out: &mut JsonText, value: &Value) -> Result<(), AllocError>
    ensures { OnOk result (out.new ≡ out.old ++ tokens_of (value_written value.now)) }
{
    match value {
        Value::Boolean(flag) => out.boolean(*flag),
        Value::Integer(integer) => out.integer(*integer),
        _ => {
            let text = value.text(alloc)?;
            out.string(text.as_str())
        }
    }
}

/// Writes an AttributeValue.
pub(crate) fn write_literal(
    alloc: Global,
    out: &mut JsonText,
    value: &Value,
) -> Result<(), AllocError>
    ensures { OnOk result (out.new ≡ out.old ++ tokens_of (literal_written value.now)) }
{
    out.begin_object()?;
    write_text(out, "DataType", value.datatype().uri())?;
    out.key("Value")?;
    write_value_text(alloc, out, value)?;
    out.end_object()
}

/// Writes an AttributeDesignator.
pub(crate) fn write_designator(
    out: &mut JsonText,
    designator: &Designator,
) -> Result<(), AllocError>
    ensures { OnOk result (out.new ≡ out.old ++ tokens_of (designator_written designator.now)) }
{
    out.begin_object()?;
    write_text(out, "AttributeId", designator.attribute.as_str())?;
    write_text(out, "Category", designator.category.as_str())?;
    write_text(out, "DataType", designator.datatype.uri())?;
    write_optional(out, "Issuer", &designator.issuer)?;
    out.key("MustBePresent")?;
    out.boolean(designator.must_be_present)?;
    out.end_object()
}
