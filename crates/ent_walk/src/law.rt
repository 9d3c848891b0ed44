//! Laws of what answers rest on.

ghost use Rattle.ent_walk.specs.Law.{DecidedNamesNoCause, EqualFindingsGiveEqualConditions};
ghost use Rattle.ent_walk.specs.Law.{EqualFindingsGiveEqualAnswers, EqualFindingsGiveEqualTargets};
ghost use Rattle.ent_walk.specs.Law.{EachKeyIsRecordedOnce};
ghost use Rattle.ent_walk.specs.Law.{EqualLookUpsGiveEqualAnswers, IndeterminateHasItsCause};
ghost use Rattle.ent_walk.specs.Law.{WhatIsLookedUpIsRecorded};

/// Law: where each question that is asked for an answer finds the same for another request, over what is held then, the
/// answer is the same, and so are what is asked and the causes.
pub fn equal_findings_give_equal_answers()
    ensures { EqualFindingsGiveEqualAnswers }
{}

/// Law: where each question that is asked for a target finds the same, the target comes to the same, and what is noted of
/// it is the same.
pub fn equal_findings_give_equal_targets()
    ensures { EqualFindingsGiveEqualTargets }
{}

/// Law: so it is with a condition among the definitions of its policy.
pub fn equal_findings_give_equal_conditions()
    ensures { EqualFindingsGiveEqualConditions }
{}

/// Law: where each look-up that is recorded for an answer gives the same, the answer is the same, and so are the
/// look-ups.
pub fn equal_look_ups_give_equal_answers()
    ensures { EqualLookUpsGiveEqualAnswers }
{}

/// Law: no key stands twice among those that are recorded for an answer.
pub fn each_key_is_recorded_once()
    ensures { EachKeyIsRecordedOnce }
{}

/// Law: the keys that are recorded for an answer are those that are looked up for it.
pub fn what_is_looked_up_is_recorded()
    ensures { WhatIsLookedUpIsRecorded }
{}

/// Law: an answer is Indeterminate only where there is a cause, and its status is that of the cause that is named of
/// it: the first that isn't passed over (section 5.55).
pub fn an_indeterminate_answer_has_its_cause()
    ensures { IndeterminateHasItsCause }
{}

/// Law: of an answer that isn't Indeterminate no cause is named, whatever failed below it.
pub fn a_decided_answer_names_no_cause()
    ensures { DecidedNamesNoCause }
{}
