//! What stands behind a child that fixed a decision is passed.

ghost use Rattle.std.specs.Prelude.{◌≡◌, List, OnOk, drop, length};
ghost use Rattle.std.specs.List.{flat_map};
ghost use Rattle.ent_policy.specs.declared.document.Policy.{Policy};
ghost use Rattle.ent_policy.specs.declared.document.PolicySet.{PolicySet};
ghost use Rattle.ent_policy.specs.declared.document.Rule.{Rule};
ghost use Rattle.ent_policy.specs.declared.expression.VariableDefinition.{VariableDefinition};
ghost use Rattle.ent_policy.specs.declared.key.DocKey.{DocKey};
ghost use Rattle.ent_policy.specs.declared.key.Reference.{Reference};
ghost use Rattle.memo_plan.specs.CameBy.{came_by};
ghost use Rattle.memo_plan.specs.Heard.{Gist, Heard, came_of_rule, condition, is_true, target};
ghost use Rattle.memo_plan.specs.Plan.{Scene};
ghost use Rattle.memo_plan.specs.proofs_only.Entries.{child_tests, children_tests, policy_tests};
ghost use Rattle.memo_plan.specs.proofs_only.Entries.{reference_tests, set_tests, tree_tests};
ghost use Rattle.ent_walk.specs.Target.{is_match, is_no_match};
ghost use Rattle.memo_replay.specs.proofs_only.Heard.{HearsNothing};
ghost use Rattle.memo_replay.specs.proofs_only.Stands.{Passes};

use crate::over::{NotJoined, Over};
use crate::state::JoinState;
use ent_policy::{Child, Tree};
use ent_request::LookUps;
use ent_walk::{Targeted, Truth};
use memo_plan::Tested;

impl<L: LookUps> Over<'_, L> {
    // Passes so many rules.
    pub(crate) fn pass_rules(&self, state: &mut JoinState, count: usize) -> Result<(), NotJoined>
        ensures passes { OnOk result ((w : Scene) (definitions : List VariableDefinition)
            (here : List DocKey) (rules : List Rule) → length rules ≡ count
            → Passes self.now (flat_map (came_of_rule w.looks w.request definitions here) rules)
            state.old state.new) }
        ensures heard { HearsNothing state.old state.new }
    {
        for _ in 0..count {
            self.pass_rule(state)?;
        }
        Ok(())
    }

    // Passes a rule.
    fn pass_rule(&self, state: &mut JoinState) -> Result<(), NotJoined>
        ensures passes { OnOk result ((w : Scene) (definitions : List VariableDefinition)
            (here : List DocKey) (r : Rule)
            → Passes self.now (came_of_rule w.looks w.request definitions here r)
            state.old state.new) }
        ensures heard { HearsNothing state.old state.new }
    {
        if is_match(&self.pass(state)?.tested) && is_true(&self.pass(state)?.tested) {
            self.pass(state)?;
        }
        Ok(())
    }

    // Passes children, from one on, where so many references may be followed on the way down from
    // here.
    #[cycle(passing)]
    pub(crate) fn pass_children(
        &self,
        fuel: usize,
        state: &mut JoinState,
        hops: usize,
        children: &[Child],
        first: usize,
    ) -> Result<(), NotJoined>
        ensures passes { OnOk result ((w : Scene) (here : List DocKey)
            → Passes self.now (children_tests hops here (drop first children.now) w)
            state.old state.new) }
        ensures heard { HearsNothing state.old state.new }
    {
        for place in first..children.len() {
            self.pass_child(fuel, state, hops, &children[place])?;
        }
        Ok(())
    }

    // Passes a child.
    #[cycle(passing)]
    fn pass_child(
        &self,
        fuel: usize,
        state: &mut JoinState,
        hops: usize,
        child: &Child,
    ) -> Result<(), NotJoined>
        ensures passes { OnOk result ((w : Scene) (path : List DocKey)
            → Passes self.now (child_tests hops path child.now w) state.old state.new) }
        ensures heard { HearsNothing state.old state.new }
    {
        if fuel == 0 {
            return Err(NotJoined::Unfit);
        }
        match child {
            Child::Policy(policy) => self.pass_policy(state, policy.rules.len()),
            Child::Set(set) => { self.pass_set(fuel - 1, state, hops, set.children.as_slice()) }
            Child::Reference(_) => self.pass_reference(fuel - 1, state, hops),
        }
    }

    // Passes a policy of so many rules.
    fn pass_policy(&self, state: &mut JoinState, rules: usize) -> Result<(), NotJoined>
        ensures passes { OnOk result ((w : Scene) (path : List DocKey) (p : Policy)
            → length p.rules ≡ rules
            → Passes self.now (policy_tests path p w) state.old state.new) }
        ensures heard { HearsNothing state.old state.new }
    {
        if is_no_match(&self.pass(state)?.tested) {
            return Ok(());
        }
        self.given(state)?;
        self.pass_rules(state, rules)
    }

    // Passes a set of these children.
    #[cycle(passing)]
    fn pass_set(
        &self,
        fuel: usize,
        state: &mut JoinState,
        hops: usize,
        children: &[Child],
    ) -> Result<(), NotJoined>
        ensures passes { OnOk result ((w : Scene) (path : List DocKey) (set : PolicySet)
            → set.children ≡ children.now
            → Passes self.now (set_tests hops path set w) state.old state.new) }
        ensures heard { HearsNothing state.old state.new }
    {
        if is_no_match(&self.pass(state)?.tested) {
            return Ok(());
        }
        self.given(state)?;
        self.pass_children(fuel, state, hops, children, 0)
    }

    // Passes a reference.
    #[cycle(passing)]
    fn pass_reference(
        &self,
        fuel: usize,
        state: &mut JoinState,
        hops: usize,
    ) -> Result<(), NotJoined>
        ensures passes { OnOk result ((w : Scene) (path : List DocKey) (reference : Reference)
            → Passes self.now (reference_tests hops path reference w) state.old state.new) }
        ensures heard { HearsNothing state.old state.new }
    {
        if hops == 0 {
            return Ok(());
        }
        let found = self.document(state)?;
        match found {
            None => Ok(()),
            Some(tree) => self.pass_tree(fuel, state, hops - 1, tree),
        }
    }

    // Passes a document.
    #[cycle(passing)]
    fn pass_tree(
        &self,
        fuel: usize,
        state: &mut JoinState,
        hops: usize,
        tree: &Tree,
    ) -> Result<(), NotJoined>
        ensures passes { OnOk result ((w : Scene) (path : List DocKey)
            → Passes self.now (tree_tests hops path tree.now w) state.old state.new) }
        ensures heard { HearsNothing state.old state.new }
    {
        match tree {
            Tree::Policy(policy) => self.pass_policy(state, policy.rules.len()),
            Tree::Set(set) => self.pass_set(fuel, state, hops, set.children.as_slice()),
        }
    }
}

// Whether a test is a target that doesn't match.
fn is_no_match(tested: &Tested) -> bool
    ensures { (t : Heard Targeted) (g : Gist) → came_by tested.now g ≡ target t
        → result ≡ is_no_match t.value }
{
    match tested {
        Tested::Target(Targeted::NoMatch) => true,
        _ => false,
    }
}

// Whether a test is a target that matches.
fn is_match(tested: &Tested) -> bool
    ensures { (t : Heard Targeted) (g : Gist) → came_by tested.now g ≡ target t
        → result ≡ is_match t.value }
{
    match tested {
        Tested::Target(Targeted::Match) => true,
        _ => false,
    }
}

// Whether a test is a condition that is True.
fn is_true(tested: &Tested) -> bool
    ensures { (t : Heard Truth) (g : Gist) → came_by tested.now g ≡ condition t
        → result ≡ is_true t.value }
{
    match tested {
        Tested::Condition(Truth::True) => true,
        _ => false,
    }
}
