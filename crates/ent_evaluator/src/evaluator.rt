//! The evaluator.

ghost use Rattle.std.specs.Prelude.{◌≡◌};
ghost use Rattle.ent_eval.specs.Evaluator.{evaluator_of};

use crate::parts::EvaluatorParts;
use ent_eval::{
    Answer, Evaluates, Exchange, Explained, ListedEvaluation, Pdp, Questions, Request, Who,
};
use ent_finder::{AttributeFinder, Attributes, Policies, PolicyFinder};
use ent_values::Shared;
use std::alloc::{AllocError, Global};
use std::marker::Model;

/// A decision point, the questions that were asked of it for listed requests, and what is remembered of their
/// evaluations, which is true of what is held.
#[derive(Drop)]
pub struct Evaluator<A: Attributes = AttributeFinder, P: Policies = PolicyFinder> {
    parts: EvaluatorParts<A, P>,
}

impl<A: Attributes, P: Policies> Model for Evaluator<A, P> {
    ghost use Rattle.ent_eval.specs.Evaluator.{Evaluator as Told};
    ghost use Rattle.ent_eval.specs.proofs_only.Codes.{evaluator_code};

    ghost Value = { Told };

    ghost coded = { evaluator_code };

    ghost use Rattle.ent_evaluator.specs.Known.{Knows, evaluator_in};

    ghost view = { λ e. evaluator_in e.parts };

    ghost invariant = { λ e. Knows e.parts };
}

impl<A: Attributes, P: Policies> Evaluates for Evaluator<A, P> {
    type Attributes = A;

    type Policies = P;

    type Pdp = Pdp<A, P>;

    ghost point = { λ p. p };

    ghost evaluator = { λ e. e };

    fn of(alloc: Global, pdp: Pdp<A, P>) -> Evaluator<A, P>
        ensures { result ≡ evaluator_of pdp }
    {
        Evaluator {
            parts: EvaluatorParts::of(alloc, pdp),
        }
    }

    fn evaluate(&mut self, who: &Who) -> Result<ListedEvaluation, AllocError> {
        self.parts.evaluate_listed(who.names())
    }

    fn answer(&mut self, request: &Request) -> Result<Shared<Answer>, AllocError> {
        self.parts.answer(request)
    }

    fn explain(&mut self, request: &Request) -> Result<Explained, AllocError> {
        self.parts.explain(request)
    }

    fn exchange(&mut self, exchange: &mut Exchange) -> Result<(), AllocError> {
        self.parts.exchange(exchange)
    }

    fn pdp(&self) -> &Pdp<A, P> {
        &self.parts.pdp
    }

    fn questions(&self) -> &Questions {
        &self.parts.questions
    }
}
