//! What changed since a mark.

ghost use Rattle.std.specs.Prelude.{◌≡◌, ◌++◌, IfOk, map};
ghost use Rattle.ent_report.specs.Notices.{decision_in, notice_of};

use ent_combine::Outcome;
use ent_eval::Answer;
use ent_table::Change;
use ent_values::{Items, Shared};
use std::alloc::{AllocError, Global};

/// A request to which two tables give different answers, with their decisions. These may be the same where only a rule,
/// an obligation, an advice or a status differs.
pub type Notice = Change<Outcome>;

/// The decision of an answer.
fn decision(answer: Option<Shared<Answer>>) -> Option<Outcome>
    ensures { result ≡ decision_in answer }
{
    match answer {
        None => None,
        Some(answer) => Some(answer.get().decision),
    }
}

/// The notice of each change.
pub(crate) fn notices_of(alloc: Global, changes: Items<Change>) -> Result<Items<Notice>, AllocError>
    ensures { IfOk result (λ ns. ns ≡ map notice_of changes) }
{
    let mut notices = Vec::with_capacity(alloc, changes.len())?;
    for change in changes.into_vec() {
        let before = decision(change.before);
        let after = decision(change.after);
        notices.push(Change {
            person: change.person,
            action: change.action,
            resource: change.resource,
            before,
            after,
        })?;
    }
    Ok(Items::from_vec(notices))
}
