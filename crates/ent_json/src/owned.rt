//! The values of `serde_json`.

ghost use Rattle.std.specs.Prelude.{◌≡◌, map};
ghost use Rattle.serde_json.specs.View.{members_view, view};
ghost use Rattle.ent_json.specs.Objects.{only};

use crate::tree::{JsonTree, is_among};
use serde_json::{Map, Value};
use std::slice;

/// Whether the members have no other keys than these.
fn only(keys: &[&str], members: &Map<String, Value>) -> bool
    ensures { result ≡ only (map (λ k. k.now) keys.now) (members_view members.now.entries) }
{
    for (key, _) in members.iter() {
        if !is_among(key.as_str(), keys) {
            return false;
        }
    }
    true
}

impl JsonTree for Value {
    ghost content = { view };

    fn is_null(&self) -> bool {
        self.is_null()
    }

    fn is_number(&self) -> bool {
        self.is_number()
    }

    fn as_bool(&self) -> Option<bool> {
        self.as_bool()
    }

    fn as_i64(&self) -> Option<i64> {
        self.as_i64()
    }

    fn as_u64(&self) -> Option<u64> {
        self.as_u64()
    }

    fn as_str(&self) -> Option<&str> {
        self.as_str()
    }

    fn as_array(&self) -> Option<&[Value]> {
        self.as_array().map(Vec::as_slice)
    }

    fn as_one(&self) -> &[Value] {
        slice::from_ref(self)
    }

    fn get(&self, key: &str) -> Option<&Value> {
        self.get(key)
    }

    fn has_only(&self, keys: &[&str]) -> bool {
        match self.as_object() {
            Some(members) => only(keys, members),
            None => false,
        }
    }

    fn one_member(&self) -> Option<(&str, &Value)> {
        let members = self.as_object()?;
        if members.len() != 1 {
            return None;
        }
        let (key, member) = members.iter().next()?;
        Some((key.as_str(), member))
    }
}
