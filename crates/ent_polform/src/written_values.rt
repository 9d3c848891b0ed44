//! Values, as they are written.

ghost use Rattle.std.specs.Prelude.{◌≡◌, IfOk, OnErr};
ghost use Rattle.serde_json.specs.View.{view};
ghost use Rattle.ent_polform.specs.ReadBack.{ValueReadsBack};
ghost use Rattle.ent_polform.specs.Values.{IsText};
ghost use Rattle.ent_polform.specs.Written.{value_written};

use ent_values::{Value, value_is_real};
use serde_json::Value as Json;
use std::alloc::{AllocError, Global};

/// A value.
#[tactic(auto, unfolding(crate::specs::Written::value_written))]
fn written(alloc: Global, value: &Value) -> Result<Json, AllocError>
    ensures written { IfOk result (λ v. view v ≡ value_written value.now) }
    ensures memory { OnErr result (IsText (value_written value.now)) }
{
    match value {
        Value::Boolean(flag) => Ok(Json::Bool(*flag)),
        Value::Integer(integer) => Ok(Json::from(*integer)),
        _ => Ok(Json::String(value.text(alloc)?.into_string(alloc)?)),
    }
}

/// The JSON that a value is written as: an integer as a number, a boolean as a boolean, every other value as its
/// written text (appendix B.3). Reading it with the value's type gives the value again, unless it is a duration of more
/// than 999,999,999 whole years.
///
/// # Errors
///
/// `AllocError` if memory runs out, which only what is written as a text takes.
///
/// Its contract is an equation but for memory.
pub fn write_value(alloc: Global, value: &Value) -> Result<Json, AllocError>
    ensures written { IfOk result (λ v. view v ≡ value_written value.now) }
    ensures read_back { IfOk result (λ v. ValueReadsBack value.now (view v)) }
    ensures memory { OnErr result (IsText (value_written value.now)) }
{
    value_is_real(value);
    written(alloc, value)
}
