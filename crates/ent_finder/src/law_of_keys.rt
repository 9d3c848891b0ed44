//! Laws of the keys of rows, and of those by which values are looked up.

ghost use Rattle.ent_finder.specs.LawOfKeys.{AttrKeysOrderByField, RowKeysOrderByField};
ghost use Rattle.ent_finder.specs.LawOfKeys.{SameAttrKeysAreEqual, SameRowKeysAreEqual};

/// A law, with nothing to run: keys order by category, then by entity, attribute, type and issuer, that without an
/// issuer first. Texts order by their bytes.
pub fn keys_order_by_field()
    ensures rows { RowKeysOrderByField }
    ensures names { AttrKeysOrderByField }
{}

/// A law, with nothing to run: `==` of two keys of rows, and of two keys by which values are looked up, says whether
/// they are equal.
pub fn same_is_equal()
    ensures rows { SameRowKeysAreEqual }
    ensures names { SameAttrKeysAreEqual }
{}
