//! Requests that are asked beside the table.

ghost use Rattle.std.specs.Prelude.{◌≡◌, ◌+◌, ◌-◌, ◌^◌, min, IfOk};
ghost use Rattle.ent_walk.specs.Answer.{answer, causes_told, recorded};
ghost use Rattle.ent_eval.specs.Evaluator.{OnlyCounts};
ghost use Rattle.ent_eval.specs.LooksOf.{looks_of};
ghost use Rattle.ent_eval.specs.Names.{request_by};
ghost use Rattle.ent_request.specs.Questions.{BeginsWith};
ghost use Rattle.ent_evaluator.specs.Known.{Knows};

use crate::names::names_in;
use crate::parts::EvaluatorParts;
use ent_eval::{Answer, Explained, Names, Request};
use ent_finder::{Attributes, Policies};
use ent_values::Shared;
use std::alloc::AllocError;

impl<A: Attributes, P: Policies> EvaluatorParts<A, P> {
    /// The answer to any request. One that has three ids and nothing else is answered by what is remembered, where that
    /// serves.
    pub(crate) fn answer(&mut self, request: &Request) -> Result<Shared<Answer>, AllocError>
        requires { Knows self.old }
        ensures answer { IfOk result (λ a. a ≡ answer (looks_of self.old.pdp) request.now) }
        ensures numbers { BeginsWith self.new.questions self.old.questions }
        ensures knows { Knows self.new }
        ensures counted { self.new.pdp.evaluations ≡ min (self.old.pdp.evaluations + 1) (2 ^ 128 - 1) }
        ensures rest { OnlyCounts self.old.pdp self.new.pdp }
    {
        match names_in(request) {
            None => self.answer_anew(request),
            Some(names) => self.answer_to(names),
        }
    }

    /// The answer to a request by the decision point alone.
    fn answer_anew(&mut self, request: &Request) -> Result<Shared<Answer>, AllocError>
        requires { Knows self.old }
        ensures answer { IfOk result (λ a. a ≡ answer (looks_of self.old.pdp) request.now) }
        ensures questions { self.new.questions ≡ self.old.questions }
        ensures knows { Knows self.new }
        ensures counted { self.new.pdp.evaluations ≡ min (self.old.pdp.evaluations + 1) (2 ^ 128 - 1) }
        ensures rest { OnlyCounts self.old.pdp self.new.pdp }
    {
        let answer = self.pdp.answer(request)?;
        Shared::new(self.alloc, answer)
    }

    /// The answer to the request of three names.
    fn answer_to(&mut self, names: Names<'_>) -> Result<Shared<Answer>, AllocError>
        requires { Knows self.old }
        ensures answer { IfOk result (λ a. a ≡ answer (looks_of self.old.pdp) (request_by names.entry)) }
        ensures numbers { BeginsWith self.new.questions self.old.questions }
        ensures knows { Knows self.new }
        ensures counted { self.new.pdp.evaluations ≡ min (self.old.pdp.evaluations + 1) (2 ^ 128 - 1) }
        ensures rest { OnlyCounts self.old.pdp self.new.pdp }
    {
        self.memory.forget_much(self.alloc);
        let evaluation = self.evaluate_listed(names)?;
        Ok(evaluation.answer)
    }

    /// The answer to any request, the look-ups that it rests on, and its causes.
    pub(crate) fn explain(&mut self, request: &Request) -> Result<Explained, AllocError>
        requires { Knows self.old }
        ensures answer { IfOk result (λ e. e.answer ≡ answer (looks_of self.old.pdp) request.now) }
        ensures reads { IfOk result (λ e. e.reads ≡ recorded (looks_of self.old.pdp) request.now) }
        ensures causes { IfOk result (λ e. e.causes ≡ causes_told (looks_of self.old.pdp) request.now) }
        ensures knows { Knows self.new }
        ensures questions { self.new.questions ≡ self.old.questions }
        ensures counted { self.new.pdp.evaluations ≡ min (self.old.pdp.evaluations + 1) (2 ^ 128 - 1) }
        ensures rest { OnlyCounts self.old.pdp self.new.pdp }
    {
        self.pdp.explain(request)
    }
}
