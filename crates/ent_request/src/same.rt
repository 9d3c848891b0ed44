//! Laws of the equality of answers, of keys and of what they look up, and of the order of keys.

ghost use Rattle.ent_request.specs.KeyOrder.{KeysOrderByKind};
ghost use Rattle.ent_request.specs.Same.{SameAnswerIsEqual, SameKeyIsEqual};
ghost use Rattle.ent_request.specs.SameLook.{SameLookIsEqual};

/// Law: `==` of two answers says whether they are equal.
pub fn same_answer_is_equal()
    ensures { SameAnswerIsEqual }
{}

/// Law: `==` of two keys of look-ups says whether they are equal.
pub fn same_key_is_equal()
    ensures { SameKeyIsEqual }
{}

/// Law: keys of look-ups order by kind: the root, then references as they order, then keys of attributes as they do,
/// then the date, the time, and both together.
pub fn keys_order_by_kind()
    ensures { KeysOrderByKind }
{}

/// Law: a test says of each key whether it gives the same in two look-ups.
pub fn same_look_is_equal()
    ensures { SameLookIsEqual }
{}
