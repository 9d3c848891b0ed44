//! Laws of tests.

ghost use Rattle.memo_tests.specs.Law.{ConditionsRest, DecisionsRest, TargetsRest};

/// Law: what is heard of a target, of a condition and of what a rule gives under one that is True rests on what is
/// asked for it, attributes alone: it is the same wherever each question that is asked finds the same.
pub fn tests_rest_on_what_they_ask()
    ensures targets { TargetsRest }
    ensures conditions { ConditionsRest }
    ensures decisions { DecisionsRest }
{}
