//! Why parts of an evaluation failed.

ghost use Rattle.std.specs.Prelude.{◌≡◌, IfOk, IsTrue, fold};
ghost use Rattle.std.specs.List.{flat_map};
ghost use Rattle.ent_request.specs.Note.{status_of};
ghost use Rattle.ent_request.specs.proofs_only.Fed.{asked_writes, cause_writes, causes_alike, key_writes, what_writes};
ghost use Rattle.ent_request.specs.proofs_only.Reason.{what_of};

use crate::answer::Status;
use crate::hashed::{feed_attribute, feed_reference};
use crate::question::{Asked, same_reference};
use ent_functions::{Fault, Function};
use ent_policy::{Designator, DocKey, Reference};
use ent_values::{Items, Text};
use std::alloc::{AllocError, Global};
use std::hash::{FoldHasher, Hash, Hasher};

/// What made a part of an evaluation Indeterminate by itself, and not by a part of it.
#[derive(PartialEq, Eq, Drop)]
pub enum What {
    /// An attribute of which a value must be present found none (section 7.3.5).
    Missing(Asked),
    /// A function has no result for its arguments (appendix A.3).
    Fault(Function, Fault),
    /// A reference names no document (section 7.15).
    Unfound(Reference),
    /// A reference is one more than are followed on the way to it.
    TooFar(Reference),
    /// More than one child of a set applies that allows one alone (appendix C.9).
    Several,
    /// What no checked document has: a variable without a definition, a condition that is no boolean, an assignment of
    /// a function.
    Unfit,
}

/// A part of an evaluation that came to Indeterminate by itself (section 5.55).
#[derive(PartialEq, Eq, Drop)]
pub struct Cause {
    /// The policies from the root on to the one in which the part stands.
    pub path: Items<DocKey>,
    /// The id of the rule in which it stands, or `None` outside rules.
    pub rule: Option<Text>,
    /// The status that it gives.
    pub status: Status,
    pub what: What,
}

impl What {
    /// Whether it is what is told of a reason.
    ///
    /// Its contract leaves open: when it answers `false`, which it may always: its callers then look or compare
    /// otherwise.
    pub fn is_of(&self, reason: Reason<'_>) -> bool
        ensures { IsTrue result → self.now ≡ what_of reason.entry }
    {
        match (self, reason) {
            (What::Missing(asked), Reason::Missing(designator)) => asked.is_of(designator),
            (What::Fault(function, fault), Reason::Fault(failed, by)) => {
                *fault == by && same_function(*function, failed)
            }
            (What::Unfound(asked), Reason::Unfound(reference)) => same_reference(asked, reference),
            (What::TooFar(asked), Reason::TooFar(reference)) => same_reference(asked, reference),
            (What::Several, Reason::Several) => true,
            _ => false,
        }
    }
}

// Whether two functions are equal.
#[tactic(auto, using(crate::proofs::Sames::equal_functions))]
fn same_function(first: Function, second: Function) -> bool
    ensures { IsTrue result → first ≡ second }
{
    first == second
}

/// What fails, as it stands in what is evaluated.
#[derive(Clone, Copy)]
pub enum Reason<'b> {
    Missing(&'b Designator),
    Fault(Function, Fault),
    Unfound(&'b Reference),
    TooFar(&'b Reference),
    Several,
}

impl Reason<'_> {
    /// What is told of it.
    ///
    /// Its contract is an equation but for memory.
    pub fn what(self, alloc: Global) -> Result<What, AllocError>
        ensures { IfOk result (λ w. w ≡ what_of self.entry) }
    {
        match self {
            Reason::Missing(designator) => Ok(What::Missing(Asked::of(alloc, designator)?)),
            Reason::Fault(function, fault) => Ok(What::Fault(function, fault)),
            Reason::Unfound(reference) => Ok(What::Unfound(reference.copy(alloc)?)),
            Reason::TooFar(reference) => Ok(What::TooFar(reference.copy(alloc)?)),
            Reason::Several => Ok(What::Several),
        }
    }

    /// Its status.
    ///
    /// Its contract is an equation.
    pub fn status(self) -> Status
        ensures { result ≡ status_of (what_of self.entry) }
    {
        match self {
            Reason::Missing(_) => Status::MissingAttribute,
            _ => Status::ProcessingError,
        }
    }

    /// A number made of it, of that of the policies in which it is, and of the rule. Few others have the same.
    ///
    /// Its contract leaves open: all of it: it is a number by which causes are sought.
    pub fn number(self, policies: u64, rule: &Option<Text>) -> u64 {
        let mut state = FoldHasher::default();
        policies.hash(&mut state);
        rule.hash(&mut state);
        match self {
            Reason::Missing(asked) => {
                feed_attribute(&asked.attribute, &asked.category, &asked.issuer, &mut state);
            }
            Reason::Unfound(reference) | Reason::TooFar(reference) => {
                feed_reference(reference, &mut state);
            }
            Reason::Fault(_, _) | Reason::Several => {}
        }
        state.finish()
    }
}

impl Hash for Cause {
    ghost hash_input = { cause_writes };

    ghost respects_eq = { causes_alike.fed };

    fn hash<H: Hasher>(&self, state: &mut H) {
        hash_path(self.path.as_slice(), state);
        self.rule.hash(state);
        hash_what(&self.what, state);
    }
}

// Feeds a hasher with the ids and the versions of policies.
fn hash_path<H: Hasher>(path: &[DocKey], state: &mut H)
    ensures { state.new ≡ fold H.write state.old (flat_map key_writes path.now) }
{
    for key in path {
        hash_key(key, state);
    }
}

// Feeds a hasher with the id and the version of a policy.
fn hash_key<H: Hasher>(key: &DocKey, state: &mut H)
    ensures { state.new ≡ fold H.write state.old (key_writes key.now) }
{
    key.id.hash(state);
    key.version.numbers().hash(state);
}

// Feeds a hasher with the texts in which what fails in one rule differs.
fn hash_what<H: Hasher>(what: &What, state: &mut H)
    ensures { state.new ≡ fold H.write state.old (what_writes what.now) }
{
    match what {
        What::Missing(asked) => hash_asked(asked, state),
        What::Unfound(reference) => reference.id.as_str().hash(state),
        What::TooFar(reference) => reference.id.as_str().hash(state),
        What::Fault(_, _) => {}
        What::Several => {}
        What::Unfit => {}
    }
}

// Feeds a hasher with the texts of what is asked of an attribute.
fn hash_asked<H: Hasher>(asked: &Asked, state: &mut H)
    ensures { state.new ≡ fold H.write state.old (asked_writes asked.now) }
{
    asked.category.hash(state);
    asked.attribute.hash(state);
    asked.issuer.hash(state);
}
