//! Listed evaluations: what is remembered of others serves them.

ghost use Rattle.std.specs.Prelude.{◌≡◌, ◌+◌, ◌-◌, ◌^◌, min, [], IfNone, IfOk, IfSome, OnOk};
ghost use Rattle.ent_walk.specs.Answer.{answer, asked, has_cause, recorded};
ghost use Rattle.ent_eval.specs.Evaluator.{OnlyCounts};
ghost use Rattle.ent_eval.specs.LooksOf.{looks_of};
ghost use Rattle.ent_eval.specs.Names.{request_by};
ghost use Rattle.ent_evaluator.specs.Known.{Knows};
ghost use Rattle.ent_evaluator.specs.Memory.{Gives, HasCase, IsKnown, cases_in};
ghost use Rattle.ent_request.specs.Questions.{AreNumbers, BeginsWith, asked_once, at_numbers, keys_at};
ghost use Rattle.ent_evaluator.specs.Tests.{IsSigned};
ghost use Rattle.ent_evaluator.specs.proofs_only.Parts.{HoldsSame, KnowsOver, OnlyMemory};
ghost use Rattle.ent_evaluator.specs.proofs_only.Remembered.{AreNamed, IsEvaluated, NoneFits};

use crate::parts::{EvaluatorParts, scene};
use ent_eval::{ListedEvaluation, Names, Request};
use ent_finder::{Attributes, Policies};
use std::alloc::AllocError;

impl<A: Attributes, P: Policies> EvaluatorParts<A, P> {
    /// The answer to the request of three names (section 7), and the questions that were asked for it, each once, by
    /// their numbers. One that has no number yet gets one; the others keep theirs, whatever comes. The look-ups that
    /// the answer rests on are those of these questions. Each call counts, also one that is refused for want of memory.
    ///
    /// A case that is remembered and that has its answer is taken over; else its answer is joined of what came of
    /// tests, or the request is evaluated, and it is a case.
    ///
    /// Its contract leaves open: which numbers new questions get, what the memory holds beside what it must, and
    /// whether anything is remembered at all. Answer, look-ups, whether a part failed, and the count are said whole.
    pub(crate) fn evaluate_listed(
        &mut self,
        names: Names<'_>,
    ) -> Result<ListedEvaluation, AllocError>
        requires knows { Knows self.old }
        ensures answer { IfOk result (λ e. e.answer ≡ answer (looks_of self.old.pdp) (request_by names.entry)) }
        ensures asked { IfOk result (λ e. at_numbers self.new.questions e.asked
            ≡ asked_once [] (asked (looks_of self.old.pdp) (request_by names.entry))) }
        ensures within { IfOk result (λ e. AreNumbers self.new.questions e.asked) }
        ensures reads { IfOk result (λ e. keys_at (request_by names.entry) (at_numbers self.new.questions e.asked)
            ≡ recorded (looks_of self.old.pdp) (request_by names.entry)) }
        ensures failed { IfOk result (λ e. e.failed ≡ has_cause (looks_of self.old.pdp) (request_by names.entry)) }
        ensures numbers { BeginsWith self.new.questions self.old.questions }
        ensures knows { Knows self.new }
        ensures again { IsKnown (looks_of self.old.pdp) self.old.questions self.old.memory (request_by names.entry)
            → (cases_in self.new.memory.cases ≡ cases_in self.old.memory.cases)
            × (self.new.questions ≡ self.old.questions) }
        ensures counted { self.new.pdp.evaluations ≡ min (self.old.pdp.evaluations + 1) (2 ^ 128 - 1) }
        ensures rest { OnlyCounts self.old.pdp self.new.pdp }
    {
        self.pdp.count();
        self.evaluate_remembered(names)
    }

    /// The same, which isn't counted.
    fn evaluate_remembered(&mut self, names: Names<'_>) -> Result<ListedEvaluation, AllocError>
        requires { Knows self.old }
        ensures evaluated { IfOk result
            (IsEvaluated (looks_of self.old.pdp) self.new.questions (request_by names.entry)) }
        ensures numbers { BeginsWith self.new.questions self.old.questions }
        ensures knows { KnowsOver self.old self.new }
        ensures again { IsKnown (looks_of self.old.pdp) self.old.questions self.old.memory (request_by names.entry)
            → (cases_in self.new.memory.cases ≡ cases_in self.old.memory.cases)
            × (self.new.questions ≡ self.old.questions) }
        ensures rest { HoldsSame self.old self.new }
    {
        match self.recalled(names)? {
            Some(evaluation) => Ok(evaluation),
            None => self.evaluate_by_tests(names),
        }
    }

    /// The answer and the questions of a case that is remembered, if the request fits one.
    fn recalled(&mut self, names: Names<'_>) -> Result<Option<ListedEvaluation>, AllocError>
        requires { Knows self.old }
        ensures some { IfOk result (λ o. IfSome o (λ e. HasCase (looks_of self.old.pdp) self.old.questions
            self.new.memory (request_by names.entry) (Gives e))) }
        ensures none { IfOk result (λ o. IfNone o (NoneFits (looks_of self.old.pdp) self.old.questions
            self.old.memory.findings.bags (request_by names.entry) (cases_in self.old.memory.cases))) }
        ensures knows { KnowsOver self.old self.new }
        ensures cases { cases_in self.new.memory.cases ≡ cases_in self.old.memory.cases }
        ensures named { OnOk result (AreNamed (looks_of self.old.pdp) self.old.questions
            self.new.memory.findings names.entry.person.now names.entry.action.now names.entry.resource.now) }
        ensures rest { OnlyMemory self.old self.new }
    {
        self.memory
            .recall(&scene(self.alloc, &self.pdp, &self.questions, names))
    }

    /// Evaluates the request by what came of tests, if they are tried.
    fn evaluate_by_tests(&mut self, names: Names<'_>) -> Result<ListedEvaluation, AllocError>
        requires knows { Knows self.old }
        requires named { AreNamed (looks_of self.old.pdp) self.old.questions self.old.memory.findings
            names.person.now names.action.now names.resource.now }
        ensures evaluated { IfOk result
            (IsEvaluated (looks_of self.old.pdp) self.new.questions (request_by names.entry)) }
        ensures numbers { BeginsWith self.new.questions self.old.questions }
        ensures knows { KnowsOver self.old self.new }
        ensures rest { HoldsSame self.old self.new }
    {
        let tried = self.memory.are_tests_tried(self.alloc, &self.pdp)?;
        if tried {
            self.memory
                .sign(self.alloc, &self.pdp, &mut self.questions, names)?;
            self.evaluate_signed(names)
        } else {
            self.evaluate_anew(names)
        }
    }

    /// The answer and the questions of the case that the way of tests tells, if there is one; else they are joined, or
    /// the request is evaluated, and it is such a case then.
    fn evaluate_signed(&mut self, names: Names<'_>) -> Result<ListedEvaluation, AllocError>
        requires knows { Knows self.old }
        requires signed { IsSigned (looks_of self.old.pdp) self.old.questions (request_by names)
            self.old.memory.tests }
        ensures evaluated { IfOk result
            (IsEvaluated (looks_of self.old.pdp) self.new.questions (request_by names.entry)) }
        ensures numbers { BeginsWith self.new.questions self.old.questions }
        ensures knows { KnowsOver self.old self.new }
        ensures rest { HoldsSame self.old self.new }
    {
        match self.memory.told()? {
            Some(evaluation) => {
                self.keep(names, &evaluation)?;
                Ok(evaluation)
            }
            None => {
                let evaluation = self.evaluate_untold(names)?;
                self.memory.put(self.alloc, &evaluation)?;
                Ok(evaluation)
            }
        }
    }

    /// The answer and the questions are joined of what came of tests, or else the request is evaluated.
    fn evaluate_untold(&mut self, names: Names<'_>) -> Result<ListedEvaluation, AllocError>
        requires knows { Knows self.old }
        requires signed { IsSigned (looks_of self.old.pdp) self.old.questions (request_by names)
            self.old.memory.tests }
        ensures evaluated { IfOk result
            (IsEvaluated (looks_of self.old.pdp) self.new.questions (request_by names.entry)) }
        ensures numbers { BeginsWith self.new.questions self.old.questions }
        ensures knows { KnowsOver self.old self.new }
        ensures signed { IsSigned (looks_of self.old.pdp) self.new.questions (request_by names.entry)
            self.new.memory.tests }
        ensures rest { HoldsSame self.old self.new }
    {
        match self.joined(names)? {
            None => self.evaluate_anew(names),
            Some(evaluation) => {
                self.keep(names, &evaluation)?;
                Ok(evaluation)
            }
        }
    }

    /// The answer and the questions that are joined of what came of tests, if they can be.
    fn joined(&mut self, names: Names<'_>) -> Result<Option<ListedEvaluation>, AllocError>
        requires knows { Knows self.old }
        requires signed { IsSigned (looks_of self.old.pdp) self.old.questions (request_by names)
            self.old.memory.tests }
        ensures evaluated { IfOk result (λ o. IfSome o
            (IsEvaluated (looks_of self.old.pdp) self.old.questions (request_by names.entry))) }
        ensures knows { KnowsOver self.old self.new }
        ensures signed { IsSigned (looks_of self.old.pdp) self.old.questions (request_by names.entry)
            self.new.memory.tests }
        ensures rest { OnlyMemory self.old self.new }
    {
        self.memory
            .joined(&scene(self.alloc, &self.pdp, &self.questions, names))
    }

    /// Evaluates the request and remembers its case.
    fn evaluate_anew(&mut self, names: Names<'_>) -> Result<ListedEvaluation, AllocError>
        requires { Knows self.old }
        ensures evaluated { IfOk result
            (IsEvaluated (looks_of self.old.pdp) self.new.questions (request_by names.entry)) }
        ensures numbers { BeginsWith self.new.questions self.old.questions }
        ensures knows { KnowsOver self.old self.new }
        ensures tests { self.new.memory.tests ≡ self.old.memory.tests }
        ensures rest { HoldsSame self.old self.new }
    {
        let evaluation = self.evaluate_afresh(names)?;
        self.keep(names, &evaluation)?;
        Ok(evaluation)
    }

    /// Remembers an evaluation as a case.
    fn keep(&mut self, names: Names<'_>, evaluation: &ListedEvaluation) -> Result<(), AllocError>
        requires knows { Knows self.old }
        requires evaluated { IsEvaluated (looks_of self.old.pdp) self.old.questions (request_by names)
            evaluation.now }
        ensures knows { KnowsOver self.old self.new }
        ensures tests { self.new.memory.tests ≡ self.old.memory.tests }
        ensures rest { OnlyMemory self.old self.new }
    {
        self.memory.keep(
            &scene(self.alloc, &self.pdp, &self.questions, names),
            evaluation,
        )
    }

    /// Evaluates the request. Nothing is remembered of it.
    fn evaluate_afresh(&mut self, names: Names<'_>) -> Result<ListedEvaluation, AllocError>
        ensures evaluated { IfOk result
            (IsEvaluated (looks_of self.old.pdp) self.new.questions (request_by names.entry)) }
        ensures numbers { BeginsWith self.new.questions self.old.questions }
        ensures memory { self.new.memory ≡ self.old.memory }
        ensures rest { HoldsSame self.old self.new }
    {
        let request = Request::listed(
            self.alloc,
            names.person.as_str(),
            names.action.as_str(),
            names.resource.as_str(),
        )?;
        self.pdp.evaluate_numbered(&mut self.questions, &request)
    }
}
