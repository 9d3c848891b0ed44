//! The parts of an evaluator.

ghost use Rattle.std.specs.Prelude.{◌≡◌, []};
ghost use Rattle.ent_evaluator.specs.Known.{Knows};

use crate::memory::Memory;
use ent_eval::{Names, Pdp, Questions};
use ent_finder::{Attributes, Policies};
use memo_bags::Scene;
use std::alloc::Global;

/// A decision point, the questions that were asked of it for listed requests, by number, and what is remembered of
/// their evaluations. Between the steps of an exchange these don't fit each other, so they are no evaluator then.
#[derive(Drop)]
pub struct EvaluatorParts<A: Attributes, P: Policies> {
    pub(crate) alloc: Global,
    pub(crate) pdp: Pdp<A, P>,
    pub(crate) questions: Questions,
    pub(crate) memory: Memory,
}

/// What a listed request is evaluated over.
pub(crate) fn scene<'a, L>(
    alloc: Global,
    held: &'a L,
    questions: &'a Questions,
    names: Names<'a>,
) -> Scene<'a, L>
    ensures held { result.held.now ≡ held.now }
    ensures questions { result.questions.now ≡ questions.now }
    ensures person { result.person.now ≡ names.entry.person.now }
    ensures action { result.action.now ≡ names.entry.action.now }
    ensures resource { result.resource.now ≡ names.entry.resource.now }
{
    Scene {
        alloc,
        held,
        questions,
        person: names.person,
        action: names.action,
        resource: names.resource,
    }
}

impl<A: Attributes, P: Policies> EvaluatorParts<A, P> {
    /// Those of an evaluator that remembers nothing yet. Nothing is allocated.
    ///
    /// Its contract leaves open: what the memory holds: any that is true of what is held would do.
    pub(crate) fn of(alloc: Global, pdp: Pdp<A, P>) -> EvaluatorParts<A, P>
        ensures pdp { result.pdp ≡ pdp }
        ensures questions { result.questions ≡ [] }
        ensures knows { Knows result }
    {
        EvaluatorParts {
            alloc,
            pdp,
            questions: Questions::new(alloc),
            memory: Memory::new(alloc),
        }
    }
}
