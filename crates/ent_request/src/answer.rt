//! What a request is answered.

ghost use Rattle.std.specs.Prelude.{◌≡◌, IfOk};
ghost use Rattle.ent_request.specs.Plain.{bad, indeterminate, nothing, unresolved};

use crate::given::{Given, copied_given};
use ent_combine::{IndKind, Outcome};
use ent_policy::DocKey;
use ent_values::{Items, Shared, Text};
use std::alloc::{AllocError, Global};

/// Why a decision is Indeterminate (section 5.55 and appendix B.8), or that nothing went wrong.
#[derive(Clone, Copy, PartialEq, Eq)]
pub enum Status {
    Okay,
    /// A value that must be present isn't.
    MissingAttribute,
    /// Anything else.
    ProcessingError,
}

/// A rule that gave the decision, or an element that gave it by default.
#[derive(PartialEq, Eq, Drop)]
pub struct WhyEntry {
    /// The policies from the root on to the one in which the rule stands, or to the element. Entries with equal paths
    /// may share it.
    pub path: Shared<Items<DocKey>>,
    /// The rule's id, or `None` for a default.
    pub rule: Option<Text>,
}

/// What a request is answered, or what one rule or policy comes to.
#[derive(PartialEq, Eq, Drop)]
pub struct Answer {
    pub decision: Outcome,
    /// `Okay` unless the decision is Indeterminate.
    pub status: Status,
    /// The rules that gave a Permit or a Deny, in document order. It is empty for every other decision.
    pub why: Items<WhyEntry>,
    /// The obligations that go with a Permit or a Deny (section 7.18), in document order. They are none for every other
    /// decision.
    pub obligations: Items<Given>,
    /// The advice that goes with it, in the same manner.
    pub advice: Items<Given>,
}

impl WhyEntry {
    /// An equal entry.
    ///
    /// Its contract is an equation but for memory.
    pub fn copy(&self, alloc: Global) -> Result<WhyEntry, AllocError>
        ensures { IfOk result (λ w. w ≡ self.now) }
    {
        Ok(WhyEntry {
            path: self.path.copy()?,
            rule: copied_text(alloc, &self.rule)?,
        })
    }
}

impl Answer {
    /// What isn't applicable.
    ///
    /// Its contract is an equation.
    pub fn not_applicable(alloc: Global) -> Answer
        ensures { result ≡ nothing }
    {
        Answer {
            decision: Outcome::NotApplicable,
            status: Status::Okay,
            why: Items::new(alloc),
            obligations: Items::new(alloc),
            advice: Items::new(alloc),
        }
    }

    /// What is Indeterminate.
    ///
    /// Its contract is an equation.
    pub fn indeterminate(alloc: Global, kind: IndKind, status: Status) -> Answer
        ensures { result ≡ indeterminate kind status }
    {
        Answer {
            decision: Outcome::Ind(kind),
            status,
            why: Items::new(alloc),
            obligations: Items::new(alloc),
            advice: Items::new(alloc),
        }
    }

    /// A reference that isn't resolved.
    ///
    /// Its contract is an equation.
    pub fn unresolved(alloc: Global) -> Answer
        ensures { result ≡ unresolved }
    {
        Answer::indeterminate(alloc, IndKind::DP, Status::ProcessingError)
    }

    /// A set of which more than one child applies, or nobody can say.
    ///
    /// Its contract is an equation.
    pub fn bad(alloc: Global, status: Status) -> Answer
        ensures { result ≡ bad status }
    {
        Answer::indeterminate(alloc, IndKind::DP, status)
    }

    /// An equal answer.
    ///
    /// Its contract is an equation but for memory.
    pub fn copy(&self, alloc: Global) -> Result<Answer, AllocError>
        ensures { IfOk result (λ a. a ≡ self.now) }
    {
        Ok(Answer {
            decision: self.decision,
            status: self.status,
            why: copied_why(alloc, self.why.as_slice())?,
            obligations: copied_given(alloc, self.obligations.as_slice())?,
            advice: copied_given(alloc, self.advice.as_slice())?,
        })
    }
}

// An equal list of entries.
fn copied_why(alloc: Global, why: &[WhyEntry]) -> Result<Items<WhyEntry>, AllocError>
    ensures { IfOk result (λ w. w ≡ why.now) }
{
    let mut copies = Items::with_capacity(alloc, why.len())?;
    for entry in why {
        copies.push(entry.copy(alloc)?)?;
    }
    Ok(copies)
}

/// An equal optional text.
///
/// Its contract is an equation but for memory.
pub fn copied_text(alloc: Global, text: &Option<Text>) -> Result<Option<Text>, AllocError>
    ensures { IfOk result (λ t. t ≡ text.now) }
{
    match text {
        None => Ok(None),
        Some(text) => Ok(Some(text.copy(alloc)?)),
    }
}
