//! A law of the notices.

ghost use Rattle.ent_report.specs.Differing.{NoticesAreTheDifference};

/// Law: the notices are the difference of the table that was kept and the present one. A request has one exactly where
/// the two tables have different optional answers to it, with the decisions of both, and their requests ascend in byte
/// order of person, action and resource, each once. Where the table of a state was kept, they are the requests that an
/// edit from there to the present state would tell as changed, and as many as it tells if no list has a name twice.
pub fn notices_are_the_difference()
    ensures { NoticesAreTheDifference }
{}
