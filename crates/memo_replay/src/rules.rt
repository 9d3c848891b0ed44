//! Rules and policies, joined of what came of their tests.

ghost use Rattle.std.specs.Prelude.{◌++◌, [], ◌∷◌, IfOk, List};
ghost use Rattle.std.specs.List.{flat_map};
ghost use Rattle.ent_policy.specs.declared.expression.VariableDefinition.{VariableDefinition};
ghost use Rattle.ent_policy.specs.declared.key.DocKey.{DocKey};
ghost use Rattle.ent_trace.specs.proofs_only.Path.{keys_of};
ghost use Rattle.ent_walk.specs.Node.{policy_key, policy_part, policy_rules, rules_combined};
ghost use Rattle.ent_walk.specs.Rule.{decided, rule_part};
ghost use Rattle.ent_walk.specs.declared.evaluated.Truth.TheVariants as truth;
ghost use Rattle.ent_walk.specs.proofs_only.Gathered.{Gathers, Tells};
ghost use Rattle.ent_walk.specs.proofs_only.Judged.{or_nothing};
ghost use Rattle.memo_plan.specs.Heard.{came_of_rule, heard};
ghost use Rattle.memo_plan.specs.proofs_only.Entries.{policy_tests};
ghost use Rattle.memo_replay.specs.proofs_only.Stands.{Joins, TakesPart, heard_matched, looks_in};
ghost use Rattle.memo_replay.specs.proofs_only.Stands.{matched_came, request_in, scene_in};

use crate::over::{NotJoined, Over};
use crate::state::JoinState;
use ent_combine::{Progress, RuleAlg};
use ent_policy::{Kind, Policy, Rule};
use ent_request::{Answer, LookUps, Status};
use ent_trace::Path;
use ent_walk::{Gathering, Targeted, Truth, indeterminate_of, no_children, under};

impl<L: LookUps> Over<'_, L> {
    // A policy, where the path leads from the root to what it stands in.
    pub(crate) fn policy(
        &self,
        state: &mut JoinState,
        path: &Path<'_>,
        policy: &Policy,
    ) -> Result<Option<Answer>, NotJoined>
        ensures { IfOk result (λ a. Joins self.now
            (policy_tests (keys_of path.now) policy.now (scene_in L.looks self.now))
            (policy_part (looks_in L.looks self.now) (request_in self.now)
            (keys_of path.now) policy.now)
            state.old state.new (or_nothing a)) }
    {
        match self.target(state)? {
            Targeted::NoMatch => Ok(None),
            Targeted::Match => {
                self.given(state)?;
                self.rules_of(state, path, policy)
            }
            Targeted::Indeterminate(status) => {
                self.given(state)?;
                let answer = self.rules_of(state, path, policy)?;
                Ok(under(self.scene.alloc, status, answer))
            }
        }
    }

    // The rules of a policy.
    fn rules_of(
        &self,
        state: &mut JoinState,
        path: &Path<'_>,
        policy: &Policy,
    ) -> Result<Option<Answer>, NotJoined>
        ensures { IfOk result (λ a. Joins self.now
            (flat_map (came_of_rule (looks_in L.looks self.now) (request_in self.now)
            policy.now.variables (keys_of path.now ++ policy_key policy.now ∷ [])) policy.now.rules)
            (policy_rules (looks_in L.looks self.now) (request_in self.now)
            (keys_of path.now) policy.now)
            state.old state.new (or_nothing a)) }
    {
        let here = Path::Below {
            above: &*path,
            kind: Kind::Policy,
            id: &policy.id,
            version: &policy.version,
        };
        self.rules(state, &here, policy.algorithm, policy.rules.as_slice())
    }

    // Rules, up to the first that fixes the decision; those behind it are passed.
    fn rules(
        &self,
        state: &mut JoinState,
        path: &Path<'_>,
        algorithm: RuleAlg,
        rules: &[Rule],
    ) -> Result<Option<Answer>, NotJoined>
        ensures { IfOk result (λ a. (definitions : List VariableDefinition) → Joins self.now
            (flat_map (came_of_rule (looks_in L.looks self.now) (request_in self.now)
            definitions (keys_of path.now)) rules.now)
            (rules_combined (looks_in L.looks self.now) (request_in self.now)
            definitions (keys_of path.now) algorithm rules.now)
            state.old state.new (or_nothing a)) }
    {
        let mut gathering = no_children(self.scene.alloc, algorithm);
        for place in 0..rules.len() {
            if let Progress::Stop = self.next_rule(state, &mut gathering, &rules[place])? {
                self.pass_rules(state, rules.len() - place - 1)?;
                return Ok(gathering.finish(self.scene.alloc, &mut state.notes, path, algorithm)?);
            }
        }
        Ok(gathering.finish(self.scene.alloc, &mut state.notes, path, algorithm)?)
    }

    // One rule more, which is gathered, and whether it fixes the decision.
    fn next_rule(
        &self,
        state: &mut JoinState,
        gathering: &mut Gathering,
        rule: &Rule,
    ) -> Result<Progress, NotJoined>
        ensures { IfOk result (λ p. (definitions : List VariableDefinition) (here : List DocKey)
            → TakesPart self.now
            (came_of_rule (looks_in L.looks self.now) (request_in self.now)
            definitions here rule.now)
            (heard (rule_part (looks_in L.looks self.now) (request_in self.now)
            definitions here rule.now))
            state.old state.new gathering.old gathering.new p) }
    {
        match self.target(state)? {
            Targeted::NoMatch => Ok(gathering.pass()),
            Targeted::Indeterminate(status) => self.spoiled(gathering, rule, status),
            Targeted::Match => self.next_matched(state, gathering, rule),
        }
    }

    // The same behind its target, which matches.
    fn next_matched(
        &self,
        state: &mut JoinState,
        gathering: &mut Gathering,
        rule: &Rule,
    ) -> Result<Progress, NotJoined>
        ensures { IfOk result (λ p. (definitions : List VariableDefinition) (here : List DocKey)
            → TakesPart self.now
            (matched_came (looks_in L.looks self.now) (request_in self.now)
            definitions here rule.now)
            (heard_matched (looks_in L.looks self.now) (request_in self.now)
            definitions here rule.now)
            state.old state.new gathering.old gathering.new p) }
    {
        match self.condition(state)? {
            Truth::False => Ok(gathering.pass()),
            Truth::Indeterminate(status) => self.spoiled(gathering, rule, status),
            Truth::True => {
                let answer = self.decided(state)?;
                Ok(gathering.take(Some(answer))?)
            }
        }
    }

    // A rule whose target or condition is Indeterminate.
    fn spoiled(
        &self,
        gathering: &mut Gathering,
        rule: &Rule,
        status: Status,
    ) -> Result<Progress, NotJoined>
        ensures { IfOk result (λ p. (here : List DocKey)
            → Gathers gathering.old gathering.new
            (decided here rule.now (truth.Indeterminate status))
            × Tells gathering.old (decided here rule.now (truth.Indeterminate status)) p) }
    {
        let kind = indeterminate_of(rule.effect);
        let answer = Answer::indeterminate(self.scene.alloc, kind, status);
        Ok(gathering.take(Some(answer))?)
    }
}
