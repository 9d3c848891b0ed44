//! What stands at a key of a JSON object.

ghost use Rattle.std.specs.Prelude.{◌≡◌, map, option_map};
ghost use Rattle.serde_json.specs.View.{items_of};
ghost use Rattle.ent_json.specs.Objects.{filled_list_at, flag_at, list_at, text_at, text_or_absent};

use crate::tree::JsonTree;

/// The text at the key of an object. `None` if the key is absent or something else stands there.
///
/// Its contract is an equation.
pub fn text_at<'a, J: JsonTree>(object: &'a J, key: &str) -> Option<&'a str>
    ensures { option_map (λ s. s.now) result ≡ text_at key.now (J.content object.now) }
{
    object.get(key)?.as_str()
}

/// Whether the key of an object is absent, or a text stands there. A value that is no object has no key.
///
/// Its contract is an equation.
pub fn text_or_absent<J: JsonTree>(object: &J, key: &str) -> bool
    ensures { result ≡ text_or_absent key.now (J.content object.now) }
{
    match object.get(key) {
        None => true,
        Some(value) => value.as_str().is_some(),
    }
}

/// The flag at the key of an object, `false` if the key is absent. `None` if something else stands there. A value that
/// is no object has no key.
///
/// Its contract is an equation.
pub fn flag_at<J: JsonTree>(object: &J, key: &str) -> Option<bool>
    ensures { result ≡ flag_at key.now (J.content object.now) }
{
    match object.get(key) {
        None => Some(false),
        Some(value) => value.as_bool(),
    }
}

/// The list at the key of an object, empty if the key is absent. `None` if something else stands there. A value that is
/// no object has no key.
///
/// Its contract is an equation.
pub fn list_at<'a, J: JsonTree>(object: &'a J, key: &str) -> Option<&'a [J]>
    ensures { option_map (λ s. items_of (map J.content s.now)) result ≡ list_at key.now (J.content object.now) }
{
    match object.get(key) {
        None => Some(&[]),
        Some(value) => value.as_array(),
    }
}

/// The list at the key of an object if it has a member. `None` if the key is absent, if the list is empty, or if
/// something else stands there.
///
/// Its contract is an equation.
pub fn filled_list_at<'a, J: JsonTree>(object: &'a J, key: &str) -> Option<&'a [J]>
    ensures { option_map (λ s. items_of (map J.content s.now)) result ≡ filled_list_at key.now (J.content object.now) }
{
    let items = list_at(object, key)?;
    if items.is_empty() { None } else { Some(items) }
}
