//! What those above an evaluator need of it.

ghost use Rattle.std.specs.Prelude.{◌≡◌, ◌+◌, ◌-◌, ◌^◌, min, [], IfOk, OnErr, OnOk};
ghost use Rattle.ent_walk.specs.Answer.{answer, asked, causes_told, has_cause, recorded};
ghost use Rattle.ent_request.specs.Questions.{AreNumbers, BeginsWith, asked_once, at_numbers, keys_at};
ghost use Rattle.ent_eval.specs.Evaluator.{Evaluator, OnlyCounts, evaluator_of};
ghost use Rattle.ent_eval.specs.Exchange.{FitsHeld, HasPlace, held_with, taken_from};
ghost use Rattle.ent_eval.specs.LooksOf.{held_by, looks_of};
ghost use Rattle.ent_eval.specs.Names.{request_of};
ghost use Rattle.ent_eval.specs.Point.{Point};

use crate::exchange::Exchange;
use crate::pdp::{Explained, ListedEvaluation, Pdp};
use crate::who::Who;
use ent_finder::{Attributes, Policies};
use ent_request::{Answer, Questions, Request};
use ent_values::Shared;
use std::alloc::{AllocError, Global};

/// Owns a decision point and evaluates requests by it. It may remember what serves later evaluations: no contract tells
/// what that is. The questions of listed requests have numbers, which they keep.
pub trait Evaluates: Drop {
    /// Where the values of attributes are held.
    type Attributes: Attributes;
    /// Where the documents are held.
    type Policies: Policies;
    /// What one is made of: a decision point.
    type Pdp: Drop;

    // The decision point that it is.
    ghost point: { Self.Pdp → Point };

    ghost evaluator: { Self → Evaluator };

    /// An evaluator that owns a decision point, and remembers nothing yet. Nothing is allocated.
    fn of(alloc: Global, pdp: Self::Pdp) -> Self
        ensures { evaluator result ≡ evaluator_of (point pdp) };

    /// The answer to the request of a cell (section 7), and the questions that were asked for it, each once, by their
    /// numbers. One that has no number yet gets one; the others keep theirs, whatever comes. The look-ups that the
    /// answer rests on are those of these questions.
    ///
    /// Each call counts, also one that is refused for want of memory. What is held stays.
    fn evaluate(&mut self, who: &Who) -> Result<ListedEvaluation, AllocError>
        ensures answer { IfOk result (λ e. e.answer
            ≡ answer (looks_of (evaluator self.old).pdp) (request_of who.now)) }
        ensures asked { IfOk result (λ e. at_numbers (evaluator self.new).questions e.asked
            ≡ asked_once [] (asked (looks_of (evaluator self.old).pdp) (request_of who.now))) }
        ensures within { IfOk result (λ e. AreNumbers (evaluator self.new).questions e.asked) }
        ensures reads { IfOk result (λ e.
            keys_at (request_of who.now) (at_numbers (evaluator self.new).questions e.asked)
            ≡ recorded (looks_of (evaluator self.old).pdp) (request_of who.now)) }
        ensures failed { IfOk result (λ e. e.failed
            ≡ has_cause (looks_of (evaluator self.old).pdp) (request_of who.now)) }
        ensures numbers { BeginsWith (evaluator self.new).questions (evaluator self.old).questions }
        ensures counted { (evaluator self.new).pdp.evaluations
            ≡ min ((evaluator self.old).pdp.evaluations + 1) (2 ^ 128 - 1) }
        ensures rest { OnlyCounts (evaluator self.old).pdp (evaluator self.new).pdp };

    /// The answer to any request, of a cell or not. One that has three ids and nothing else may be answered by what is
    /// remembered, and then has its owners. For the rest it is as `evaluate`.
    fn answer(&mut self, request: &Request) -> Result<Shared<Answer>, AllocError>
        ensures answer { IfOk result (λ a. a ≡ answer (looks_of (evaluator self.old).pdp) request.now) }
        ensures numbers { BeginsWith (evaluator self.new).questions (evaluator self.old).questions }
        ensures counted { (evaluator self.new).pdp.evaluations
            ≡ min ((evaluator self.old).pdp.evaluations + 1) (2 ^ 128 - 1) }
        ensures rest { OnlyCounts (evaluator self.old).pdp (evaluator self.new).pdp };

    /// The same answer, the look-ups that it rests on, each once, and its causes, as [`Pdp::explain`] tells them.
    fn explain(&mut self, request: &Request) -> Result<Explained, AllocError>
        ensures answer { IfOk result (λ e. e.answer ≡ answer (looks_of (evaluator self.old).pdp) request.now) }
        ensures reads { IfOk result (λ e. e.reads
            ≡ recorded (looks_of (evaluator self.old).pdp) request.now) }
        ensures causes { IfOk result (λ e. e.causes
            ≡ causes_told (looks_of (evaluator self.old).pdp) request.now) }
        ensures numbers { (evaluator self.new).questions ≡ (evaluator self.old).questions }
        ensures counted { (evaluator self.new).pdp.evaluations
            ≡ min ((evaluator self.old).pdp.evaluations + 1) (2 ^ 128 - 1) }
        ensures rest { OnlyCounts (evaluator self.old).pdp (evaluator self.new).pdp };

    /// Exchanges one thing of what is held with what stands there. Where there is a place for it this takes no memory,
    /// and there is one once it is done: so exchanging it again takes it back. It evaluates nothing.
    fn exchange(&mut self, exchange: &mut Exchange) -> Result<(), AllocError>
        requires { FitsHeld (held_by (evaluator self.old).pdp) exchange.old }
        ensures made { OnOk result (held_by (evaluator self.new).pdp
            ≡ held_with (held_by (evaluator self.old).pdp) exchange.old) }
        ensures taken { OnOk result (exchange.new ≡ taken_from (held_by (evaluator self.old).pdp) exchange.old) }
        ensures again { OnOk result (FitsHeld (held_by (evaluator self.new).pdp) exchange.new) }
        ensures there { OnOk result (HasPlace (evaluator self.new).pdp exchange.new) }
        ensures absent { OnErr result (¬ HasPlace (evaluator self.old).pdp exchange.old) }
        ensures kept { OnErr result (held_by (evaluator self.new).pdp ≡ held_by (evaluator self.old).pdp) }
        ensures numbers { (evaluator self.new).questions ≡ (evaluator self.old).questions }
        ensures counted { (evaluator self.new).pdp.evaluations ≡ (evaluator self.old).pdp.evaluations };

    /// The decision point.
    fn pdp(&self) -> &Pdp<Self::Attributes, Self::Policies>
        ensures { result.now ≡ (evaluator self.now).pdp };

    /// The questions that were asked for listed requests, by number.
    fn questions(&self) -> &Questions
        ensures { result.now ≡ (evaluator self.now).questions };
}
