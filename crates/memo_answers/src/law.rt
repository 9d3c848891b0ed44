//! Laws of cases by what came of tests.

ghost use Rattle.memo_answers.specs.Told.{AnswersAreTold, CasesStayTold, CasesTell};

/// Law: what is heard of an answer, whose tests a way signs, is a case by that way.
pub fn answers_are_told()
    ensures { AnswersAreTold }
{}

/// Law: where the way of a case signs the tests of another answer, over the same root and documents, the same is heard
/// of that answer.
pub fn cases_tell()
    ensures { CasesTell }
{}

/// Law: a case stays one as questions get numbers and outcomes are learnt, whatever else is held over the same root.
pub fn cases_stay_told()
    ensures { CasesStayTold }
{}
