//! What a policy comes to.

ghost use Rattle.std.specs.Prelude.{◌≡◌, IfOk, true};
ghost use Rattle.std.specs.List.{list_all};
ghost use Rattle.ent_policy.specs.Typing.{given_is_typed, rule_is_typed, target_is_typed};
ghost use Rattle.ent_walk.specs.proofs_only.Comes.{Comes, in_walk};
ghost use Rattle.ent_walk.specs.Judged.{has_failed, is_ind, under_target};
ghost use Rattle.ent_walk.specs.proofs_only.Judged.{or_nothing};
ghost use Rattle.ent_walk.specs.Node.{policy_rules, rules_combined};
ghost use Rattle.ent_walk.specs.proofs_only.Node.{in_policy, policy_after, policy_target};
ghost use Rattle.ent_trace.specs.proofs_only.Path.{keys_of};
ghost use Rattle.ent_request.specs.Part.{settled};

use crate::gather::no_children;
use crate::rule::RulePlace;
use crate::target::Targeted;
use crate::walk::Walk;
use ent_combine::{Outcome, Progress, RuleAlg, under_indeterminate_target};
use ent_policy::{Kind, Policy, Rule};
use ent_request::{Answer, LookUps, Status};
use ent_trace::Path;
use ent_values::Items;
use std::alloc::{AllocError, Global};

impl<'a, L: LookUps> Walk<'a, L> {
    // Whether the target of a policy matches.
    pub(crate) fn policy_target(&mut self, policy: &'a Policy) -> Result<Targeted, AllocError>
        requires { target_is_typed policy.now.target ≡ true }
        ensures comes { IfOk result (Comes
            (in_walk L.looks self.old policy_target policy.now) self.old self.new) }
    {
        self.enter(Kind::Policy, &policy.id, &policy.version)?;
        let targeted = self.target(&policy.target)?;
        self.leave();
        Ok(targeted)
    }

    // What comes behind the target of a policy.
    pub(crate) fn policy_after(
        &mut self,
        path: &Path<'_>,
        policy: &'a Policy,
        targeted: Targeted,
    ) -> Result<Option<Answer>, AllocError>
        requires rules { list_all (rule_is_typed policy.now.variables) policy.now.rules ≡ true }
        requires given { given_is_typed policy.now.variables policy.now.given ≡ true }
        ensures comes { IfOk result (λ a. Comes
            (in_walk L.looks self.old policy_after (keys_of path.now) policy.now targeted)
            self.old self.new (or_nothing a)) }
    {
        self.enter(Kind::Policy, &policy.id, &policy.version)?;
        let answer = self.in_policy(path, policy, targeted)?;
        self.leave();
        Ok(answer)
    }

    // The rules are evaluated unless the target doesn't match, and behind them what the policy gives itself, if it
    // matches.
    #[tactic(auto, using(crate::proofs::Going::noting_both))]
    fn in_policy(
        &mut self,
        path: &Path<'_>,
        policy: &'a Policy,
        targeted: Targeted,
    ) -> Result<Option<Answer>, AllocError>
        requires rules { list_all (rule_is_typed policy.now.variables) policy.now.rules ≡ true }
        requires given { given_is_typed policy.now.variables policy.now.given ≡ true }
        ensures comes { IfOk result (λ a. Comes
            (in_walk L.looks self.old in_policy (keys_of path.now) policy.now targeted)
            self.old self.new (or_nothing a)) }
    {
        match targeted {
            Targeted::NoMatch => Ok(None),
            Targeted::Match => {
                let answer = self.settled_rules(path, policy)?;
                if answer.is_none() {
                    return Ok(None);
                }
                self.finished(policy.variables.as_slice(), &policy.given, answer)
            }
            Targeted::Indeterminate(status) => {
                let answer = self.settled_rules(path, policy)?;
                Ok(under(self.alloc, status, answer))
            }
        }
    }

    // The rules of a policy. What fails in them is passed over unless they come to Indeterminate.
    fn settled_rules(
        &mut self,
        path: &Path<'_>,
        policy: &'a Policy,
    ) -> Result<Option<Answer>, AllocError>
        requires typed { list_all (rule_is_typed policy.now.variables) policy.now.rules ≡ true }
        ensures comes { IfOk result (λ a. Comes
            (settled has_failed (in_walk L.looks self.old policy_rules (keys_of path.now) policy.now))
            self.old self.new (or_nothing a)) }
    {
        let was_named = self.notes.is_named();
        let answer = self.rules_under(path, policy)?;
        self.settle(was_named, has_failed(&answer));
        Ok(answer)
    }

    // The rules of a policy.
    #[tactic(auto, using(crate::proofs::PathKeys::keys_of_below))]
    fn rules_under(
        &mut self,
        path: &Path<'_>,
        policy: &'a Policy,
    ) -> Result<Option<Answer>, AllocError>
        requires typed { list_all (rule_is_typed policy.now.variables) policy.now.rules ≡ true }
        ensures comes { IfOk result (λ a. Comes
            (in_walk L.looks self.old policy_rules (keys_of path.now) policy.now)
            self.old self.new (or_nothing a)) }
    {
        let here = Path::Below {
            above: &*path,
            kind: Kind::Policy,
            id: &policy.id,
            version: &policy.version,
        };
        let within = RulePlace {
            definitions: policy.variables.as_slice(),
            path: &here,
        };
        self.rules(within, policy.algorithm, policy.rules.as_slice())
    }

    // Rules, up to the first that fixes the decision.
    fn rules(
        &mut self,
        within: RulePlace<'_>,
        algorithm: RuleAlg,
        rules: &'a [Rule],
    ) -> Result<Option<Answer>, AllocError>
        requires typed { list_all (rule_is_typed within.definitions.now) rules.now ≡ true }
        ensures comes { IfOk result (λ a. Comes
            (in_walk L.looks self.old rules_combined within.entry.definitions.now
            (keys_of within.entry.path.now) algorithm rules.now)
            self.old self.new (or_nothing a)) }
    {
        let mut gathering = no_children(self.alloc, algorithm);
        for rule in rules {
            let progress = self.next_rule(&mut gathering, within, rule)?;
            if let Progress::Stop = progress {
                return gathering.finish(self.alloc, &mut self.notes, within.path, algorithm);
            }
        }
        gathering.finish(self.alloc, &mut self.notes, within.path, algorithm)
    }
}

// Whether an answer is Indeterminate.
pub(crate) fn has_failed(answer: &Option<Answer>) -> bool
    ensures { result ≡ has_failed (or_nothing answer.now) }
{
    match answer {
        None => false,
        Some(answer) => is_ind(answer.decision),
    }
}

// Whether a decision is.
fn is_ind(decision: Outcome) -> bool
    ensures { result ≡ is_ind decision }
{
    match decision {
        Outcome::Ind(_) => true,
        _ => false,
    }
}

/// What an element comes to with a target that is Indeterminate.
///
/// Its contract is an equation.
pub fn under(alloc: Global, status: Status, answer: Option<Answer>) -> Option<Answer>
    ensures { or_nothing result ≡ under_target status (or_nothing answer).decision }
{
    let decision = answer?.decision;
    match decision {
        Outcome::NotApplicable => None,
        _ => Some(Answer {
            decision: under_indeterminate_target(decision),
            status,
            why: Items::new(alloc),
            obligations: Items::new(alloc),
            advice: Items::new(alloc),
        }),
    }
}
