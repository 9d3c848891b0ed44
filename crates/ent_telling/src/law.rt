//! A law of what is told of answers.

ghost use Rattle.ent_telling.specs.Law.{EqualFactsGiveEqualAnswers};

/// A law, with nothing to run: where [`write_facts`](crate::write_facts) tells the same of a request in two states,
/// with documents, its answer is the same in both, whatever else differs, where no duration has more than 999,999,999
/// whole years.
pub fn equal_facts_give_equal_answers()
    ensures { EqualFactsGiveEqualAnswers }
{}
