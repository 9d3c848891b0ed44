//! What stands at the keys of a line.

ghost use Rattle.std.specs.Prelude.{◌≡◌, codes, option_and_then, option_map, map};
ghost use Rattle.std.specs.Option.{option_copied};
ghost use Rattle.serde_json.specs.Find.{as_array, get};
ghost use Rattle.serde_json.specs.View.{items_of};
ghost use Rattle.ent_command.specs.Keys.{category_named, kind_named, list_named, null_or_text_at, number_at};
ghost use Rattle.ent_command.specs.Keys.{number_in, row_in, text_or_null};
ghost use Rattle.ent_command.specs.CommandView.{row_view};

use ent_eval::{ACCESS_SUBJECT, ACTION, RESOURCE};
use ent_json::{JsonTree, text_at, text_or_absent};
use ent_policy::Kind;
use ent_table::List;

/// The number that a whole number is, which is none where it is negative. `None` where it isn't one.
pub(crate) fn number_in<J: JsonTree>(value: &J) -> Option<Option<u64>>
    ensures { result ≡ number_in (J.content value.now) }
{
    if let Some(number) = value.as_u64() {
        return Some(Some(number));
    }
    if value.as_i64().is_some() {
        Some(None)
    } else {
        None
    }
}

/// The number at a key, as `number_in` reads it. The absent key says that one.
pub(crate) fn number_at<J: JsonTree>(object: &J, key: &str, absent: u64) -> Option<Option<u64>>
    ensures { result ≡ number_at key.now absent (J.content object.now) }
{
    match object.get(key) {
        None => Some(Some(absent)),
        Some(value) => number_in(value),
    }
}

/// The kind of document that a word names.
pub(crate) fn kind_named(word: &str) -> Option<Kind>
    ensures { result ≡ kind_named word.now }
{
    if word == Kind::Policy.word() {
        return Some(Kind::Policy);
    }
    if word == Kind::PolicySet.word() {
        return Some(Kind::PolicySet);
    }
    None
}

/// The list that a word names.
pub(crate) fn list_named(word: &str) -> Option<List>
    ensures { result ≡ list_named word.now }
{
    match word {
        "people" => Some(List::People),
        "actions" => Some(List::Actions),
        "resources" => Some(List::Resources),
        _ => None,
    }
}

/// The URI of the category that a word or the URI itself names.
pub(crate) fn category_named(word: &str) -> Option<&str>
    ensures { option_copied result ≡ category_named word.now }
{
    if word == "AccessSubject" || word == ACCESS_SUBJECT {
        Some(ACCESS_SUBJECT)
    } else if word == "Resource" || word == RESOURCE {
        Some(RESOURCE)
    } else if word == "Action" || word == ACTION {
        Some(ACTION)
    } else {
        None
    }
}

/// A text, or null for none.
fn text_or_null<J: JsonTree>(value: &J) -> Option<Option<&str>>
    ensures { option_map (λ t. option_copied t) result ≡ text_or_null (J.content value.now) }
{
    if value.is_null() {
        return Some(None);
    }
    Some(Some(value.as_str()?))
}

/// The text at a key, or none for null.
pub(crate) fn null_or_text_at<'a, J: JsonTree>(object: &'a J, key: &str) -> Option<Option<&'a str>>
    ensures { option_map (λ t. option_copied t) result ≡ null_or_text_at key.now (J.content object.now) }
{
    text_or_null(object.get(key)?)
}

/// A row as a line has it, with its category's URI. Its texts and values stay where they are in the line's JSON.
#[derive(Drop)]
pub struct AskedRow<'a, J> {
    pub(crate) category: &'a str,
    pub(crate) entity: &'a str,
    pub(crate) attribute: &'a str,
    pub(crate) datatype: &'a str,
    pub(crate) issuer: Option<&'a str>,
    pub(crate) values: &'a [J],
}

/// The array at the key `values`.
fn values_at<J: JsonTree>(object: &J) -> Option<&[J]>
    ensures { option_map (λ s. items_of (map J.content s.now)) result
        ≡ option_and_then as_array (get (codes "values") (J.content object.now)) }
{
    object.get("values")?.as_array()
}

/// The row in a line. Its issuer may be absent.
#[tactic(auto, unfolding(crate::specs::Keys::row_in))]
pub(crate) fn row_in<J: JsonTree>(object: &J) -> Option<AskedRow<'_, J>>
    ensures { option_map (row_view J.content) result ≡ row_in (J.content object.now) }
{
    let category = category_named(text_at(object, "category")?)?;
    let entity = text_at(object, "entity")?;
    let attribute = text_at(object, "attribute")?;
    let datatype = text_at(object, "type")?;
    let values = values_at(object)?;
    if !text_or_absent(object, "issuer") {
        return None;
    }
    Some(AskedRow {
        category,
        entity,
        attribute,
        datatype,
        issuer: text_at(object, "issuer"),
        values,
    })
}
