//! The obligations and the advice that an element gives itself.

ghost use Rattle.std.specs.Prelude.{◌≡◌, IfOk, OnOk, Ok, true};
ghost use Rattle.std.specs.List.{list_all};
ghost use Rattle.ent_policy.specs.Typing.{given_expression_is_typed, given_is_typed};
ghost use Rattle.ent_walk.specs.proofs_only.Comes.{Adds, Comes, in_walk};
ghost use Rattle.ent_walk.specs.Given.{advice_after, effect_of, finished, given_part, given_with, givens_part};
ghost use Rattle.ent_walk.specs.proofs_only.Given.{added};
ghost use Rattle.ent_walk.specs.Given.{goes_with, indeterminate_of, joined, with_own};
ghost use Rattle.ent_walk.specs.proofs_only.Judged.{or_nothing};
ghost use Rattle.std.specs.Prelude.{Some};

use crate::walk::Walk;
use ent_combine::{IndKind, Outcome};
use ent_policy::{Effect, GivenExpression, GivenExpressions, VariableDefinition};
use ent_request::{Answer, Given, LookUps, Status};
use ent_values::Items;
use std::alloc::AllocError;

// The definitions among which obligations and advice are evaluated, and the effect with which they go.
#[derive(Clone, Copy)]
pub(crate) struct Due<'b> {
    definitions: &'b [VariableDefinition],
    effect: Effect,
}

impl<L: LookUps> Walk<'_, L> {
    /// An element with its own obligations and advice, which are evaluated where it gives a decision (section 7.18).
    ///
    /// Its contract is an equation but for memory.
    #[tactic(auto, using(crate::proofs::Typing::both_true), unfolding(ent_policy::specs::Typing::given_is_typed))]
    pub fn finished(
        &mut self,
        definitions: &[VariableDefinition],
        given: &GivenExpressions,
        answer: Option<Answer>,
    ) -> Result<Option<Answer>, AllocError>
        requires { given_is_typed definitions.now given.now ≡ true }
        ensures comes { IfOk result (λ a. Comes
            (in_walk L.looks self.old finished definitions.now given.now (or_nothing answer))
            self.old self.new (or_nothing a)) }
    {
        let Some(answer) = answer else {
            return Ok(None);
        };
        let Some(effect) = effect_of(answer.decision) else {
            return Ok(Some(answer));
        };
        let answer = self.with_own(
            Due {
                definitions,
                effect,
            },
            given,
            answer,
        )?;
        Ok(Some(answer))
    }

    // The obligations first.
    #[tactic(auto, using(crate::proofs::Going::noting_both))]
    fn with_own(
        &mut self,
        due: Due<'_>,
        given: &GivenExpressions,
        answer: Answer,
    ) -> Result<Answer, AllocError>
        requires obligations { list_all (given_expression_is_typed due.definitions.now) given.now.obligations ≡ true }
        requires advice { list_all (given_expression_is_typed due.definitions.now) given.now.advice ≡ true }
        ensures comes { IfOk result (Comes
            (in_walk L.looks self.old given_with due.entry.definitions.now given.now
            (Some due.entry.effect) answer)
            self.old self.new) }
    {
        let obligations = self.givens(due, given.obligations.as_slice())?;
        self.with_advice(due, given, answer, obligations)
    }

    // The advice behind them, if none of them is Indeterminate.
    fn with_advice(
        &mut self,
        due: Due<'_>,
        given: &GivenExpressions,
        answer: Answer,
        obligations: Result<Items<Given>, Status>,
    ) -> Result<Answer, AllocError>
        requires { list_all (given_expression_is_typed due.definitions.now) given.now.advice ≡ true }
        ensures comes { IfOk result (Comes
            (in_walk L.looks self.old advice_after due.entry.definitions.now given.now due.entry.effect
            answer obligations)
            self.old self.new) }
    {
        match obligations {
            Err(status) => Ok(Answer::indeterminate(
                self.alloc,
                indeterminate_of(due.effect),
                status,
            )),
            Ok(obligations) => {
                let advice = self.givens(due, given.advice.as_slice())?;
                self.with_both(due.effect, answer, obligations, advice)
            }
        }
    }

    // The element with both behind those of its children, which are moved and not copied.
    fn with_both(
        &self,
        effect: Effect,
        mut answer: Answer,
        obligations: Items<Given>,
        advice: Result<Items<Given>, Status>,
    ) -> Result<Answer, AllocError>
        ensures { IfOk result (λ a. a ≡ with_own effect answer obligations advice) }
    {
        match advice {
            Err(status) => Ok(Answer::indeterminate(self.alloc, indeterminate_of(effect), status)),
            Ok(advice) => {
                answer.obligations.append(obligations)?;
                answer.advice.append(advice)?;
                Ok(answer)
            }
        }
    }

    // Obligations or advice, up to the first that is Indeterminate, whose status is given.
    fn givens(
        &mut self,
        due: Due<'_>,
        expressions: &[GivenExpression],
    ) -> Result<Result<Items<Given>, Status>, AllocError>
        requires { list_all (given_expression_is_typed due.definitions.now) expressions.now ≡ true }
        ensures comes { IfOk result (Comes
            (in_walk L.looks self.old givens_part due.entry.definitions.now due.entry.effect expressions.now)
            self.old self.new) }
    {
        let mut givens = Items::with_capacity(self.alloc, expressions.len())?;
        for expression in expressions {
            let stopped = self.give(due, expression, &mut givens)?;
            if let Some(status) = stopped {
                return Ok(Err(status));
            }
        }
        Ok(Ok(givens))
    }

    // One more, if it goes with the decision. The status is given of one that is Indeterminate.
    #[tactic(auto, unfolding(ent_policy::specs::Typing::given_expression_is_typed))]
    fn give(
        &mut self,
        due: Due<'_>,
        expression: &GivenExpression,
        givens: &mut Items<Given>,
    ) -> Result<Option<Status>, AllocError>
        requires { given_expression_is_typed due.definitions.now expression.now ≡ true }
        ensures value { IfOk result (λ s. added givens.new s ≡ joined (Ok givens.old)
            (in_walk L.looks self.old given_part due.entry.definitions.now due.entry.effect expression.now).value) }
        ensures notes { OnOk result (Adds
            (in_walk L.looks self.old given_part due.entry.definitions.now due.entry.effect expression.now).notes
            self.old self.new) }
    {
        if !goes_with(due.effect, expression.effect) {
            return Ok(None);
        }
        match self.assignments(due.definitions, expression.assignments.as_slice())? {
            Err(status) => Ok(Some(status)),
            Ok(assignments) => {
                givens.push(Given {
                    id: expression.id.copy(self.alloc)?,
                    assignments,
                })?;
                Ok(None)
            }
        }
    }
}

// Whether what goes with one decision goes with another.
fn goes_with(effect: Effect, other: Effect) -> bool
    ensures { result ≡ goes_with effect other }
{
    match (effect, other) {
        (Effect::Permit, Effect::Permit) | (Effect::Deny, Effect::Deny) => true,
        _ => false,
    }
}

// The effect of a decision, if it has one.
fn effect_of(decision: Outcome) -> Option<Effect>
    ensures { result ≡ effect_of decision }
{
    match decision {
        Outcome::Permit => Some(Effect::Permit),
        Outcome::Deny => Some(Effect::Deny),
        _ => None,
    }
}

/// The Indeterminate of an effect.
///
/// Its contract is an equation.
pub fn indeterminate_of(effect: Effect) -> IndKind
    ensures { result ≡ indeterminate_of effect }
{
    match effect {
        Effect::Permit => IndKind::P,
        Effect::Deny => IndKind::D,
    }
}
