//! What a rule comes to.

ghost use Rattle.std.specs.Prelude.{◌≡◌, [], IfOk, OnOk, Some, true};
ghost use Rattle.ent_functions.specs.Types.{boolean};
ghost use Rattle.ent_policy.specs.Typing.{condition_is_typed, given_is_typed, rule_is_typed};
ghost use Rattle.ent_walk.specs.proofs_only.Comes.{Adds, Comes, in_walk};
ghost use Rattle.ent_walk.specs.proofs_only.Gathered.{Gathers, Tells};
ghost use Rattle.ent_walk.specs.proofs_only.Judged.{or_nothing};
ghost use Rattle.ent_trace.specs.proofs_only.Path.{keys_of};
ghost use Rattle.ent_walk.specs.Rule.{condition_part, decided, decision_of, in_rule, rule_part, rule_under, truth_of};
ghost use Rattle.ent_walk.specs.proofs_only.Typed.{HasType};

use crate::evaluated::{Evaluated, Truth};
use crate::gather::Gathering;
use crate::own_given::indeterminate_of;
use crate::target::Targeted;
use crate::walk::Walk;
use ent_combine::{Outcome, Progress};
use ent_functions::Arg;
use ent_policy::{Effect, Expression, Rule, VariableDefinition};
use ent_request::{Answer, LookUps, Status, WhyEntry};
use ent_trace::Path;
use ent_values::{Items, Value};
use std::alloc::AllocError;

// Where a rule stands: the definitions of its policy, and the path that leads to this.
#[derive(Clone, Copy)]
pub(crate) struct RulePlace<'b> {
    pub(crate) definitions: &'b [VariableDefinition],
    pub(crate) path: &'b Path<'b>,
}

impl<'a, L: LookUps> Walk<'a, L> {
    // One rule more of the policy at the end of the path, among the policy's definitions, which is gathered, and
    // whether it fixes the decision.
    pub(crate) fn next_rule(
        &mut self,
        gathering: &mut Gathering,
        within: RulePlace<'_>,
        rule: &'a Rule,
    ) -> Result<Progress, AllocError>
        requires typed { rule_is_typed within.definitions.now rule.now ≡ true }
        ensures gathered { OnOk result (Gathers gathering.old gathering.new
            (in_walk L.looks self.old rule_part within.entry.definitions.now
            (keys_of within.entry.path.now) rule.now).value) }
        ensures progress { IfOk result (Tells gathering.old
            (in_walk L.looks self.old rule_part within.entry.definitions.now
            (keys_of within.entry.path.now) rule.now).value) }
        ensures notes { OnOk result (Adds
            (in_walk L.looks self.old rule_part within.entry.definitions.now
            (keys_of within.entry.path.now) rule.now).notes
            self.old self.new) }
    {
        let outer = self.enter_rule(&rule.id)?;
        let progress = self.in_rule(gathering, within, rule)?;
        self.leave_rule(outer);
        Ok(progress)
    }

    // What stands in the rule.
    #[inline(always)]
    #[tactic(auto, using(crate::proofs::Going::noting_both, crate::proofs::Typing::both_true), unfolding(ent_policy::specs::Typing::rule_is_typed))]
    fn in_rule(
        &mut self,
        gathering: &mut Gathering,
        within: RulePlace<'_>,
        rule: &'a Rule,
    ) -> Result<Progress, AllocError>
        requires typed { rule_is_typed within.definitions.now rule.now ≡ true }
        ensures gathered { OnOk result (Gathers gathering.old gathering.new
            (in_walk L.looks self.old in_rule within.entry.definitions.now
            (keys_of within.entry.path.now) rule.now).value) }
        ensures progress { IfOk result (Tells gathering.old
            (in_walk L.looks self.old in_rule within.entry.definitions.now
            (keys_of within.entry.path.now) rule.now).value) }
        ensures notes { OnOk result (Adds
            (in_walk L.looks self.old in_rule within.entry.definitions.now
            (keys_of within.entry.path.now) rule.now).notes
            self.old self.new) }
    {
        let targeted = self.target(&rule.target)?;
        if let Targeted::NoMatch = targeted {
            return Ok(gathering.pass());
        }
        let answer = self.rule_after(within, rule, targeted)?;
        gathering.take(answer)
    }

    // The condition is evaluated where the target matches, and behind it what the rule gives itself.
    #[tactic(auto, using(crate::proofs::Going::noting_both))]
    fn rule_after(
        &mut self,
        within: RulePlace<'_>,
        rule: &'a Rule,
        targeted: Targeted,
    ) -> Result<Option<Answer>, AllocError>
        requires condition { condition_is_typed within.definitions.now rule.now.condition ≡ true }
        requires given { given_is_typed within.definitions.now rule.now.given ≡ true }
        ensures comes { IfOk result (λ a. Comes
            (in_walk L.looks self.old rule_under within.entry.definitions.now
            (keys_of within.entry.path.now) rule.now targeted)
            self.old self.new (or_nothing a)) }
    {
        match targeted {
            Targeted::NoMatch => Ok(None),
            Targeted::Indeterminate(status) => {
                self.decide(within.path, rule, Truth::Indeterminate(status))
            }
            Targeted::Match => {
                let truth = self.condition(within.definitions, &rule.condition)?;
                let answer = self.decide(within.path, rule, truth)?;
                self.finished(within.definitions, &rule.given, answer)
            }
        }
    }

    /// A condition (section 7.9). An absent one is true.
    ///
    /// Its contract is an equation but for memory.
    #[tactic(auto, unfolding(ent_policy::specs::Typing::condition_is_typed))]
    pub fn condition(
        &mut self,
        definitions: &[VariableDefinition],
        condition: &'a Option<Expression>,
    ) -> Result<Truth, AllocError>
        requires typed { condition_is_typed definitions.now condition.now ≡ true }
        ensures comes { IfOk result (Comes
            (in_walk L.looks self.old condition_part definitions.now condition.now)
            self.old self.new) }
    {
        match condition {
            None => Ok(Truth::True),
            Some(expression) => {
                let evaluated = self.expression(definitions, definitions.len(), expression)?;
                Ok(truth_of(evaluated))
            }
        }
    }

    /// A rule with a target that matches, by its condition (section 7.11).
    ///
    /// Its contract is an equation but for memory.
    pub fn decide(
        &mut self,
        path: &Path<'_>,
        rule: &Rule,
        truth: Truth,
    ) -> Result<Option<Answer>, AllocError>
        ensures value { IfOk result (λ a. or_nothing a ≡ decided (keys_of path.now) rule.now truth) }
        ensures notes { OnOk result (Adds [] self.old self.new) }
    {
        match truth {
            Truth::False => Ok(None),
            Truth::Indeterminate(status) => Ok(Some(Answer::indeterminate(
                self.alloc,
                indeterminate_of(rule.effect),
                status,
            ))),
            Truth::True => {
                let entry = WhyEntry {
                    path: self.notes.path(self.alloc, path)?,
                    rule: Some(rule.id.copy(self.alloc)?),
                };
                Ok(Some(Answer {
                    decision: decision_of(rule.effect),
                    status: Status::Okay,
                    why: Items::of_one(self.alloc, entry)?,
                    obligations: Items::new(self.alloc),
                    advice: Items::new(self.alloc),
                }))
            }
        }
    }
}

// What the value of a condition is.
fn truth_of(evaluated: Evaluated) -> Truth
    requires { HasType (Some boolean) evaluated }
    ensures { result ≡ truth_of evaluated }
{
    match evaluated {
        Evaluated::Indeterminate(status) => Truth::Indeterminate(status),
        Evaluated::Known(Arg::One(Value::Boolean(true))) => Truth::True,
        Evaluated::Known(Arg::One(Value::Boolean(false))) => Truth::False,
        Evaluated::Known(_) => unreachable!(),
    }
}

fn decision_of(effect: Effect) -> Outcome
    ensures { result ≡ decision_of effect }
{
    match effect {
        Effect::Permit => Outcome::Permit,
        Effect::Deny => Outcome::Deny,
    }
}
