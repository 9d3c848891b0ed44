//! What a reader asks of a JSON value.

ghost use Rattle.std.specs.Prelude.{◌≡◌, [], ◌∷◌, bytes_eq, map, option_and_then, option_map};
ghost use Rattle.serde_json.specs.Data.{Data};
ghost use Rattle.serde_json.specs.Find.{as_array, as_bool, as_i64, as_null, as_number, as_str, as_u64, get};
ghost use Rattle.serde_json.specs.View.{items_of};
ghost use Rattle.std.specs.Option.{is_some};
ghost use Rattle.ent_json.specs.Objects.{among, has_only, one_member};

/// A JSON value. Contracts see the data that `serde_json` gives it: an object has each key once, with the value that
/// came last, and a number is a whole one of 64 bits or a float.
pub trait JsonTree: Sized {
    ghost content: { Self → Data };

    /// Whether it is null.
    fn is_null(&self) -> bool
        ensures { result ≡ is_some (as_null (content self.now)) };

    /// Whether it is a number.
    fn is_number(&self) -> bool
        ensures { result ≡ is_some (as_number (content self.now)) };

    /// The flag that it is, if it is one.
    fn as_bool(&self) -> Option<bool>
        ensures { result ≡ as_bool (content self.now) };

    /// The whole number of 64 bits with a sign that it is, if it is one.
    fn as_i64(&self) -> Option<i64>
        ensures { result ≡ option_and_then as_i64 (as_number (content self.now)) };

    /// The whole number of 64 bits without a sign that it is, if it is one.
    fn as_u64(&self) -> Option<u64>
        ensures { result ≡ option_and_then as_u64 (as_number (content self.now)) };

    /// The text that it is, if it is one.
    fn as_str(&self) -> Option<&str>
        ensures { option_map (λ s. s.now) result ≡ as_str (content self.now) };

    /// The members of the array that it is, if it is one.
    fn as_array(&self) -> Option<&[Self]>
        ensures { option_map (λ v. items_of (map content v.now)) result ≡ as_array (content self.now) };

    /// The list that has this value alone.
    fn as_one(&self) -> &[Self]
        ensures { map content result.now ≡ content self.now ∷ [] };

    /// What stands at the key of the object that it is, if it is one and has the key.
    fn get(&self, key: &str) -> Option<&Self>
        ensures { option_map (λ v. content v.now) result ≡ get key.now (content self.now) };

    /// Whether it is an object with no other keys than these.
    fn has_only(&self, keys: &[&str]) -> bool
        ensures { result ≡ has_only (map (λ k. k.now) keys.now) (content self.now) };

    /// The key and the value of the object that it is, if it is one and has just one member.
    fn one_member(&self) -> Option<(&str, &Self)>
        ensures { option_map (λ m. (m.0.now, content m.1.now)) result ≡ one_member (content self.now) };
}

/// Whether two keys are the same. Most that differ do so in their lengths already.
pub(crate) fn is_same(first: &str, second: &str) -> bool
    ensures { result ≡ bytes_eq first.now second.now }
{
    first.len() == second.len() && first == second
}

/// Whether the key is one of these.
pub(crate) fn is_among(key: &str, keys: &[&str]) -> bool
    ensures { result ≡ among key.now (map (λ k. k.now) keys.now) }
{
    for k in keys {
        if is_same(k, key) {
            return true;
        }
    }
    false
}
