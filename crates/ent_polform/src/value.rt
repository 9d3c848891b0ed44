//! Values of a known data type, as JSON has them.

ghost use Rattle.std.specs.Prelude.{◌≡◌, None, IfErr, IfOk, Some};
ghost use Rattle.ent_values.specs.declared.fault.ValueFault.TheVariants.{BadValue, Memory};
ghost use Rattle.ent_polform.specs.Values.{IsCopied, value_in};

use ent_json::JsonTree;
use ent_policy::{boolean_as, integer_as};
use ent_values::{DataType, Value, ValueFault};
use std::alloc::Global;

/// The value of that type that a JSON value spells: a text by the type's lexical form (appendix B.3), a boolean where
/// the type is boolean, a whole number of 64 bits where it is integer. A text is copied once.
///
/// # Errors
///
/// [`ValueFault::BadValue`] for any other JSON value. [`ValueFault::Memory`] if memory runs out, which only a text
/// takes whose type is string or anyURI.
///
/// Its contract is an equation but for memory.
#[tactic(auto, using(crate::proofs::ScalarLemmas::value_is))]
pub fn read_value<J: JsonTree>(
    alloc: Global,
    datatype: DataType,
    json: &J,
) -> Result<Value, ValueFault>
    ensures read { IfOk result (λ v. value_in datatype (J.content json.now) ≡ Some v) }
    ensures bad { IfErr result (λ e. e ≡ BadValue → value_in datatype (J.content json.now) ≡ None) }
    ensures memory { IfErr result (λ e. e ≡ Memory → IsCopied datatype (J.content json.now)) }
{
    if let Some(text) = json.as_str() {
        return Value::parse(alloc, datatype, text);
    }
    if let Some(flag) = json.as_bool() {
        return boolean_as(flag, datatype).ok_or(ValueFault::BadValue);
    }
    let whole = json.as_i64().ok_or(ValueFault::BadValue)?;
    integer_as(whole, datatype).ok_or(ValueFault::BadValue)
}
