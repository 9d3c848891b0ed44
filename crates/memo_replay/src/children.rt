//! Children of sets and references, joined of what came of their tests.

ghost use Rattle.std.specs.Prelude.{◌++◌, [], ◌∷◌, IfOk};
ghost use Rattle.ent_policy.specs.Children.{as_child};
ghost use Rattle.ent_trace.specs.proofs_only.Path.{keys_of};
ghost use Rattle.ent_walk.specs.Node.{set_key};
ghost use Rattle.ent_walk.specs.proofs_only.Hops.{child_part, children_combined};
ghost use Rattle.ent_walk.specs.proofs_only.Hops.{reference_part, set_children, set_part};
ghost use Rattle.ent_walk.specs.proofs_only.Judged.{or_nothing};
ghost use Rattle.memo_plan.specs.proofs_only.Entries.{child_tests, children_tests};
ghost use Rattle.memo_plan.specs.proofs_only.Entries.{reference_tests, set_tests, tree_tests};
ghost use Rattle.memo_replay.specs.proofs_only.Stands.{Joins, looks_in, request_in, scene_in};

use crate::over::{NotJoined, Over};
use crate::state::JoinState;
use ent_combine::{PolicyAlg, Progress, RuleAlg};
use ent_policy::{Child, Kind, PolicySet, Reference, Tree};
use ent_request::{Answer, LookUps};
use ent_trace::Path;
use ent_walk::{Targeted, no_children, under};

impl<L: LookUps> Over<'_, L> {
    // A child, where the path leads from the root to what it stands in, and so many references may
    // be followed on the way down from here. Deeper than the fuel nothing is joined.
    #[cycle(joining)]
    fn child(
        &self,
        fuel: usize,
        state: &mut JoinState,
        hops: usize,
        path: &Path<'_>,
        child: &Child,
    ) -> Result<Option<Answer>, NotJoined>
        ensures { IfOk result (λ a. Joins self.now
            (child_tests hops (keys_of path.now) child.now (scene_in L.looks self.now))
            (child_part (looks_in L.looks self.now) (request_in self.now) hops
            (keys_of path.now) child.now)
            state.old state.new (or_nothing a)) }
    {
        if fuel == 0 {
            return Err(NotJoined::Unfit);
        }
        match child {
            Child::Policy(policy) => self.policy(state, path, policy),
            Child::Set(set) => self.set(fuel - 1, state, hops, path, set),
            Child::Reference(reference) => self.reference(fuel - 1, state, hops, path, reference),
        }
    }

    // A reference.
    #[cycle(joining)]
    pub(crate) fn reference(
        &self,
        fuel: usize,
        state: &mut JoinState,
        hops: usize,
        path: &Path<'_>,
        reference: &Reference,
    ) -> Result<Option<Answer>, NotJoined>
        ensures { IfOk result (λ a. Joins self.now
            (reference_tests hops (keys_of path.now) reference.now (scene_in L.looks self.now))
            (reference_part (looks_in L.looks self.now) (request_in self.now) hops
            (keys_of path.now) reference.now)
            state.old state.new (or_nothing a)) }
    {
        if hops == 0 {
            state.fail();
            return Ok(Some(Answer::unresolved(self.scene.alloc)));
        }
        let found = self.named(state, reference)?;
        match found {
            None => {
                state.fail();
                Ok(Some(Answer::unresolved(self.scene.alloc)))
            }
            Some(tree) => self.tree(fuel, state, hops - 1, path, tree),
        }
    }

    // A document.
    #[cycle(joining)]
    fn tree(
        &self,
        fuel: usize,
        state: &mut JoinState,
        hops: usize,
        path: &Path<'_>,
        tree: &Tree,
    ) -> Result<Option<Answer>, NotJoined>
        ensures { IfOk result (λ a. Joins self.now
            (tree_tests hops (keys_of path.now) tree.now (scene_in L.looks self.now))
            (child_part (looks_in L.looks self.now) (request_in self.now) hops
            (keys_of path.now) (as_child tree.now))
            state.old state.new (or_nothing a)) }
    {
        match tree {
            Tree::Policy(policy) => self.policy(state, path, policy),
            Tree::Set(set) => self.set(fuel, state, hops, path, set),
        }
    }

    // A set.
    #[cycle(joining)]
    fn set(
        &self,
        fuel: usize,
        state: &mut JoinState,
        hops: usize,
        path: &Path<'_>,
        set: &PolicySet,
    ) -> Result<Option<Answer>, NotJoined>
        ensures { IfOk result (λ a. Joins self.now
            (set_tests hops (keys_of path.now) set.now (scene_in L.looks self.now))
            (set_part (looks_in L.looks self.now) (request_in self.now) hops
            (keys_of path.now) set.now)
            state.old state.new (or_nothing a)) }
    {
        match self.target(state)? {
            Targeted::NoMatch => Ok(None),
            Targeted::Match => {
                self.given(state)?;
                self.children_of(fuel, state, hops, path, set)
            }
            Targeted::Indeterminate(status) => {
                self.given(state)?;
                let answer = self.children_of(fuel, state, hops, path, set)?;
                Ok(under(self.scene.alloc, status, answer))
            }
        }
    }

    // The children of a set.
    #[cycle(joining)]
    fn children_of(
        &self,
        fuel: usize,
        state: &mut JoinState,
        hops: usize,
        path: &Path<'_>,
        set: &PolicySet,
    ) -> Result<Option<Answer>, NotJoined>
        ensures { IfOk result (λ a. Joins self.now
            (children_tests hops (keys_of path.now ++ set_key set.now.id set.now.version ∷ [])
            set.now.children (scene_in L.looks self.now))
            (set_children (looks_in L.looks self.now) (request_in self.now) hops
            (keys_of path.now) set.now)
            state.old state.new (or_nothing a)) }
    {
        let here = Path::Below {
            above: &*path,
            kind: Kind::PolicySet,
            id: &set.id,
            version: &set.version,
        };
        match set.algorithm {
            PolicyAlg::OnlyOne => Err(NotJoined::Unfit),
            PolicyAlg::Shared(algorithm) => {
                self.children(fuel, state, hops, &here, algorithm, set.children.as_slice())
            }
        }
    }

    // Children, up to the first that fixes the decision; those behind it are passed.
    #[cycle(joining)]
    fn children(
        &self,
        fuel: usize,
        state: &mut JoinState,
        hops: usize,
        path: &Path<'_>,
        algorithm: RuleAlg,
        children: &[Child],
    ) -> Result<Option<Answer>, NotJoined>
        ensures { IfOk result (λ a. Joins self.now
            (children_tests hops (keys_of path.now) children.now (scene_in L.looks self.now))
            (children_combined (looks_in L.looks self.now) (request_in self.now) hops
            (keys_of path.now) algorithm children.now)
            state.old state.new (or_nothing a)) }
    {
        let mut gathering = no_children(self.scene.alloc, algorithm);
        for place in 0..children.len() {
            let answer = self.child(fuel, state, hops, path, &children[place])?;
            if let Progress::Stop = gathering.take(answer)? {
                self.pass_children(fuel, state, hops, children, place + 1)?;
                return Ok(gathering.finish(self.scene.alloc, &mut state.notes, path, algorithm)?);
            }
        }
        Ok(gathering.finish(self.scene.alloc, &mut state.notes, path, algorithm)?)
    }
}
