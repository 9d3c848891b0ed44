//! Laws of names, versions, documents and variables.

ghost use Rattle.std.specs.Prelude.{ℕ, Option};
ghost use Rattle.ent_functions.specs.declared.types.ArgType.{ArgType};
ghost use Rattle.ent_policy.specs.Orders.{KeysOrderByName, PatternsOrderByPart, PoliciesComeFirst};
ghost use Rattle.ent_policy.specs.Orders.{ReferencesOrderByName};
ghost use Rattle.ent_policy.specs.Same.{SameConstraintsAreEqual, SameDocumentsAreEqual, SameKeysAreEqual};
ghost use Rattle.ent_policy.specs.Same.{SameKindsAreEqual, SameNamesAreEqual, SamePatternsAreEqual};
ghost use Rattle.ent_policy.specs.Same.{SameReferencesAreEqual, SameVersionsAreEqual};
ghost use Rattle.ent_policy.specs.StandIns.{StandInsHaveNoType};
ghost use Rattle.ent_policy.specs.Variables.{EndsByDefinitions, MoreReferencesChangeNothing};

/// A law, with nothing to run: `==` of two kinds, of two names, of two versions, of two version patterns, of two
/// constraints, of two keys, of two references and of two documents says whether they are equal.
pub fn same_is_equal()
    ensures kinds { SameKindsAreEqual }
    ensures names { SameNamesAreEqual }
    ensures versions { SameVersionsAreEqual }
    ensures patterns { SamePatternsAreEqual }
    ensures constraints { SameConstraintsAreEqual }
    ensures keys { SameKeysAreEqual }
    ensures references { SameReferencesAreEqual }
    ensures documents { SameDocumentsAreEqual }
{}

/// A law, with nothing to run: policies come before policy sets; version patterns order part by part; keys order by
/// kind, then by the bytes of the id, then by version; references by kind, then by the bytes of the id, then by their
/// constraints.
pub fn order_is_by_kind_id_and_version()
    ensures kinds { PoliciesComeFirst }
    ensures patterns { PatternsOrderByPart }
    ensures keys { KeysOrderByName }
    ensures references { ReferencesOrderByName }
{}

/// A law, with nothing to run: what is counted of a variable that leads to an end, and its type, are the same through
/// more references; and what leads to an end leads there through as many references as there are definitions.
pub fn more_references_change_nothing()
    ensures counts { MoreReferencesChangeNothing ℕ }
    ensures types { MoreReferencesChangeNothing (Option ArgType) }
    ensures ends { EndsByDefinitions }
{}

/// A law, with nothing to run: where a name or a value of a document can't be read, its first fault is the one of its
/// reading or one of limits, variables, size or depth. No type is asked for, also none of what stands in for it.
pub fn stand_ins_have_no_type()
    ensures { StandInsHaveNoType }
{}
