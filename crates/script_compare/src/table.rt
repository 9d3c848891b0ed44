//! The cells of a table, by their requests.

ghost use Rattle.std.specs.Prelude.{◌≡◌, [], ◌++◌, IfOk, OnOk, codes, map, option_and_then, option_map, string_bytes};
ghost use Rattle.serde_json.specs.Data.{no_members};
ghost use Rattle.serde_json.specs.View.{items_view, members_view, view};
ghost use Rattle.ent_json.specs.Line.{data_of};
ghost use Rattle.script_compare.specs.Tables.{by_request, names_text, request_by, request_of, table_in};

use ent_json::text_at;
use serde_json::{Map, Value, put};
use std::alloc::{AllocError, Global};
use std::str;

/// The text of a list of three names.
///
/// # Errors
///
/// `AllocError` if memory runs out.
///
/// Its contract is an equation but for memory.
#[tactic(auto, unfolding(crate::specs::Tables::names_text))]
pub fn names_text(
    alloc: Global,
    person: &str,
    action: &str,
    resource: &str,
) -> Result<String, AllocError>
    ensures { IfOk result (λ s. string_bytes s ≡ names_text person.now action.now resource.now) }
{
    let mut names = Vec::new(alloc);
    names.push(Value::try_from_str(alloc, person)?)?;
    names.push(Value::try_from_str(alloc, action)?)?;
    names.push(Value::try_from_str(alloc, resource)?)?;
    Value::Array(names).to_string(alloc)
}

/// The request of a cell: the text of the list of its person, action and resource, if it has them.
fn request_of(alloc: Global, cell: &Value) -> Result<Option<String>, AllocError>
    ensures { IfOk result (λ o. option_map string_bytes o ≡ request_of (view cell.now)) }
{
    match (
        text_at(cell, "person"),
        text_at(cell, "action"),
        text_at(cell, "resource"),
    ) {
        (Some(person), Some(action), Some(resource)) => {
            Ok(Some(names_text(alloc, person, action, resource)?))
        }
        _ => Ok(None),
    }
}

/// Cells at their requests, if each has one.
fn by_request(alloc: Global, cells: Vec<Value>) -> Result<Option<Map<String, Value>>, AllocError>
    ensures { IfOk result (λ o. option_map (λ m. members_view m.entries) o
        ≡ by_request no_members (map view cells.items)) }
{
    let mut found = Map::new(alloc);
    for cell in cells {
        let Some(request) = request_of(alloc, &cell)? else {
            return Ok(None);
        };
        put(&mut found, alloc, request.as_str(), cell)?;
    }
    Ok(Some(found))
}

/// The table that the reply to `table` tells: its cells at their requests.
fn table_in(alloc: Global, mut reply: Value) -> Result<Option<Map<String, Value>>, AllocError>
    ensures { IfOk result (λ o. option_map (λ m. members_view m.entries) o ≡ table_in (view reply)) }
{
    let Some(cells) = reply.get_mut("table") else {
        return Ok(None);
    };
    match cells.take() {
        Value::Array(cells) => by_request(alloc, cells),
        _ => Ok(None),
    }
}

/// The JSON value that a text is, or nothing where it is none.
///
/// # Errors
///
/// `AllocError` if memory runs out.
///
/// Its contract is an equation but for memory.
pub fn value_of(alloc: Global, text: &[u8]) -> Result<Option<Value>, AllocError>
    ensures { IfOk result (λ o. option_map view o ≡ data_of text.now) }
{
    let Ok(text) = str::from_utf8(text) else {
        return Ok(None);
    };
    match Value::from_str(alloc, text) {
        Ok(value) => Ok(Some(value)),
        Err(e) if e.is_memory() => Err(AllocError),
        Err(_) => Ok(None),
    }
}

/// The table that a text tells, if it is a reply to `table`.
pub(crate) fn read_table(
    alloc: Global,
    text: &[u8],
) -> Result<Option<Map<String, Value>>, AllocError>
    ensures { IfOk result (λ o. option_map (λ m. members_view m.entries) o
        ≡ option_and_then table_in (data_of text.now)) }
{
    match value_of(alloc, text)? {
        Some(reply) => table_in(alloc, reply),
        None => Ok(None),
    }
}
