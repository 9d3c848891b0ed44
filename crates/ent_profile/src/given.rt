//! Obligations and advice as JSON.

ghost use Rattle.std.specs.Prelude.{◌≡◌, IfOk, Some, map};
ghost use Rattle.serde_json.specs.Data.{array};
ghost use Rattle.serde_json.specs.Read as json;
ghost use Rattle.serde_json.specs.View.{items_of, view};
ghost use Rattle.ent_profile.specs.Response.{given_written};

use crate::given_text::write_given_text;
use crate::reals::given_are_real;
use ent_json::JsonText;
use ent_request::Given;
use serde_json::Value;
use std::alloc::{AllocError, Global};

/// The JSON value of a text that was written here.
pub(crate) fn read_again(alloc: Global, text: &str) -> Result<Value, AllocError>
    ensures { IfOk result (λ v. json.read text.now ≡ Some (view v)) }
{
    match Value::from_str(alloc, text) {
        Ok(value) => Ok(value),
        // The text is JSON, so memory alone can be wanting.
        Err(_) => Err(AllocError),
    }
}

/// The list of obligations or of advice as a response has it: each with its Id and its AttributeAssignment, a list that
/// is always written; each assignment with AttributeId, DataType as its full URI, Value, and the Category and the
/// Issuer that the policy gives. It is what the text of [`write_given_text`] is read as.
///
/// # Errors
///
/// `AllocError` if memory runs out.
///
/// Its contract is an equation but for memory.
pub fn write_given(alloc: Global, given: &[Given]) -> Result<Value, AllocError>
    ensures { IfOk result (λ v. view v ≡ array (items_of (map given_written given.now))) }
{
    given_are_real(given);
    let mut out = JsonText::with_room(alloc)?;
    write_given_text(alloc, &mut out, given)?;
    let text = out.into_string();
    read_again(alloc, text.as_str())
}
