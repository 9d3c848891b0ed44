//! Laws of the replies.

ghost use Rattle.ent_line.specs.Asking.{QuestionsLeaveAll};
ghost use Rattle.ent_line.specs.Headline.{IsHeadline};
ghost use Rattle.ent_line.specs.Sessions.{SessionsAreSeparate};

/// Law: whatever a line is answered (`Commands` says it: an edit is told by the state that its step leads to, the
/// table, its cells and its reports by every listed request evaluated afresh, section 7), a refused line changes
/// nothing, and each reply is one line. Notices are the difference of two such tables.
///
/// After any lines the state is where their accepted edits lead, one after the other; a session's mark is the fresh
/// table of the state at the place of its last accepted mark among them; and no list has a name twice if none had.
pub fn replies_are_fresh()
    ensures { IsHeadline }
{}

/// Law: what a session is told by `notices` rests on the accepted edits and on its own marks alone. Two runs from the
/// same state and the same mark of a session, with the same accepted edits and with the session's own accepted marks at
/// the same places among them, give the session the same notices, and the same reply to a line that asks for them
/// unless memory is wanting, whatever other sessions mark or ask.
pub fn sessions_are_separate()
    ensures { SessionsAreSeparate }
{}

/// Law: lines that only ask ([`only_asks`](crate::only_asks)) leave the world and the tables that are known, and behind
/// any other number of evaluations that is counted they may be answered in the same way.
pub fn questions_leave_all()
    ensures { QuestionsLeaveAll }
{}
