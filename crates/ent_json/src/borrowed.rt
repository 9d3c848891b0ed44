//! The values of `json`, whose texts are borrowed.

ghost use Rattle.std.specs.Prelude.{◌≡◌, map, option_map};
ghost use Rattle.json.specs.Value.{members_view, value_view};
ghost use Rattle.serde_json.specs.Data.{no_members};
ghost use Rattle.ent_json.specs.Content.{content_of, members_content};
ghost use Rattle.ent_json.specs.Objects.{alone, only};

use crate::number::number;
use crate::tree::{JsonTree, is_among, is_same};
use json::Value;
use std::slice;

/// Whether the members have no other keys than these.
fn only(keys: &[&str], members: &[(&str, Value<'_>)]) -> bool
    ensures { result ≡ only (map (λ k. k.now) keys.now) (members_content (members_view members.now) no_members) }
{
    for member in members {
        if !is_among(member.0, keys) {
            return false;
        }
    }
    true
}

/// The key that all members have, and the last value, which is the one that counts.
fn alone<'v, 'a>(members: &'v [(&'a str, Value<'a>)]) -> Option<(&'v str, &'v Value<'a>)>
    ensures { option_map (λ m. (m.0.now, content_of (value_view m.1.now))) result
        ≡ alone (members_content (members_view members.now) no_members) }
{
    let (first, rest) = members.split_first()?;
    let key = first.0;
    let mut last = &first.1;
    for member in rest {
        if !is_same(member.0, key) {
            return None;
        }
        last = &member.1;
    }
    Some((key, last))
}

impl<'a> JsonTree for Value<'a> {
    ghost content = { λ v. content_of (value_view v) };

    fn is_null(&self) -> bool {
        match self {
            Value::Null => true,
            Value::Number(text) => number(text).is_none(),
            _ => false,
        }
    }

    fn is_number(&self) -> bool {
        match self.as_number() {
            Some(text) => number(text).is_some(),
            None => false,
        }
    }

    fn as_bool(&self) -> Option<bool> {
        self.as_bool()
    }

    fn as_i64(&self) -> Option<i64> {
        number(self.as_number()?)?.as_i64()
    }

    fn as_u64(&self) -> Option<u64> {
        number(self.as_number()?)?.as_u64()
    }

    fn as_str(&self) -> Option<&str> {
        self.as_str()
    }

    fn as_array(&self) -> Option<&[Value<'a>]> {
        match self {
            Value::Array(items) => Some(items.as_slice()),
            _ => None,
        }
    }

    fn as_one(&self) -> &[Value<'a>] {
        slice::from_ref(self)
    }

    fn get(&self, key: &str) -> Option<&Value<'a>> {
        self.get(key)
    }

    fn has_only(&self, keys: &[&str]) -> bool {
        match self {
            Value::Object(members) => only(keys, members),
            _ => false,
        }
    }

    fn one_member(&self) -> Option<(&str, &Value<'a>)> {
        match self {
            Value::Object(members) => alone(members),
            _ => None,
        }
    }
}
