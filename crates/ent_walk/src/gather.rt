//! What is kept of children that were seen.

ghost use Rattle.std.specs.Prelude.{◌≡◌, List, [], IfOk, OnOk};
ghost use Rattle.ent_walk.specs.proofs_only.Gathered.{Gathers, HasGathered, Tells, judged_by, status_with};
ghost use Rattle.ent_trace.specs.proofs_only.Path.{keys_of};
ghost use Rattle.ent_request.specs.Plain.{nothing};
ghost use Rattle.ent_walk.specs.proofs_only.Judged.{or_nothing};
ghost use Rattle.ent_request.specs.declared.answer.Answer.{Answer};

use crate::told::ToldChildren;
use ent_combine::{Combiner, Outcome, Progress, RuleAlg};
use ent_request::{Answer, Status};
use ent_trace::{Notes, Path};
use std::alloc::{AllocError, Global};

/// The children that were seen: what they come to, the first status that isn't `Okay`, and what those of each decision
/// tell.
#[derive(Drop)]
pub struct Gathering {
    pub combiner: Combiner,
    pub status: Option<Status>,
    pub permitted: ToldChildren,
    pub denied: ToldChildren,
}

/// No children.
///
/// Its contract is an equation.
pub fn no_children(alloc: Global, algorithm: RuleAlg) -> Gathering
    ensures { HasGathered algorithm result [] }
{
    Gathering {
        combiner: Combiner::new(algorithm),
        status: None,
        permitted: ToldChildren::nothing(alloc),
        denied: ToldChildren::nothing(alloc),
    }
}

impl Gathering {
    /// One more child, and whether it fixes the decision.
    ///
    /// Its contract leaves open: which value stands for the children so far; what is told at each is said whole.
    pub fn take(&mut self, answer: Option<Answer>) -> Result<Progress, AllocError>
        ensures gathered { OnOk result (Gathers self.old self.new (or_nothing answer)) }
        ensures progress { IfOk result (Tells self.old (or_nothing answer)) }
    {
        match answer {
            None => Ok(self.pass()),
            Some(answer) => self.take_answer(answer),
        }
    }

    /// One more child, which isn't applicable.
    ///
    /// Its contract leaves open: which value stands for the children so far; what is told at each is said whole.
    pub fn pass(&mut self) -> Progress
        ensures gathered { Gathers self.old self.new nothing }
        ensures progress { Tells self.old nothing result }
    {
        self.combiner.take(Outcome::NotApplicable)
    }

    // A child that has an answer.
    fn take_answer(&mut self, answer: Answer) -> Result<Progress, AllocError>
        ensures gathered { OnOk result (Gathers self.old self.new answer) }
        ensures progress { IfOk result (Tells self.old answer) }
    {
        let Answer {
            decision,
            status,
            why,
            obligations,
            advice,
        } = answer;
        let told = ToldChildren {
            any: true,
            why,
            obligations,
            advice,
        };
        self.status = status_after(self.status, decision, status);
        let progress = self.combiner.take(decision);
        match decision {
            Outcome::Permit => {
                self.permitted.add(told)?;
                Ok(progress)
            }
            Outcome::Deny => {
                self.denied.add(told)?;
                Ok(progress)
            }
            _ => Ok(progress),
        }
    }

    /// What the children of the element at the end of the path come to.
    ///
    /// Its contract leaves open: what is told of a value that stands for no list of children, which no caller comes to.
    pub fn finish(
        self,
        alloc: Global,
        notes: &mut Notes,
        here: &Path<'_>,
        algorithm: RuleAlg,
    ) -> Result<Option<Answer>, AllocError>
        ensures value { IfOk result (λ a. (answers : List Answer) → HasGathered algorithm self answers → or_nothing a
            ≡ judged_by (keys_of here.now) algorithm answers) }
        ensures notes { notes.new ≡ notes.old }
    {
        let decision = self.combiner.finish();
        match decision {
            Outcome::Permit => {
                let permitted = self.permitted;
                let told = permitted.with_default(alloc, notes, here, algorithm)?;
                Ok(Some(told.decided(decision)))
            }
            Outcome::Deny => {
                let denied = self.denied;
                let told = denied.with_default(alloc, notes, here, algorithm)?;
                Ok(Some(told.decided(decision)))
            }
            Outcome::NotApplicable => Ok(None),
            Outcome::Ind(kind) => Ok(Some(Answer::indeterminate(
                alloc,
                kind,
                self.status.unwrap_or(Status::ProcessingError),
            ))),
        }
    }
}

// The status of the first Indeterminate, with one more child.
fn status_after(so_far: Option<Status>, decision: Outcome, status: Status) -> Option<Status>
    ensures { result ≡ status_with so_far decision status }
{
    match (so_far, decision) {
        (Some(first), _) => Some(first),
        (None, Outcome::Ind(_)) => Some(status),
        (None, _) => None,
    }
}
