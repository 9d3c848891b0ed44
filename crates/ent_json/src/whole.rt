//! Whether `serde_json` reads each number of a value.

ghost use Rattle.std.specs.Prelude.{◌≡◌};
ghost use Rattle.std.specs.Option.{is_some};
ghost use Rattle.json.specs.Value.{items_view, members_view, value_view};
ghost use Rattle.serde_json.specs.Data.{no_members};
ghost use Rattle.serde_json.specs.Read.{of_items, of_json, of_members};

use crate::number::number;
use json::Value;

/// Whether each number in the value is in range. `serde_json` refuses a text that has another.
#[cycle(is_whole)]
pub(crate) fn is_whole(value: &Value<'_>) -> bool
    ensures { result ≡ is_some (of_json (value_view value.now)) }
{
    match value {
        Value::Null | Value::Bool(_) | Value::String(_) => true,
        Value::Number(text) => number(text).is_some(),
        Value::Array(items) => are_items_whole(items),
        Value::Object(members) => are_members_whole(members),
    }
}

#[cycle(is_whole)]
fn are_items_whole(items: &[Value<'_>]) -> bool
    ensures { result ≡ is_some (of_items (items_view items.now)) }
{
    for item in items {
        if !is_whole(item) {
            return false;
        }
    }
    true
}

#[cycle(is_whole)]
fn are_members_whole(members: &[(&str, Value<'_>)]) -> bool
    ensures { result ≡ is_some (of_members (members_view members.now) no_members) }
{
    for member in members {
        if !is_whole(&member.1) {
            return false;
        }
    }
    true
}
