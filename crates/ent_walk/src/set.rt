//! What a policy set comes to.

ghost use Rattle.std.specs.Prelude.{◌≡◌, ◌≤◌, [], IfOk, OnOk, length, map, true};
ghost use Rattle.std.specs.List.{list_all};
ghost use Rattle.ent_policy.specs.Typing.{given_is_typed, target_is_typed};
ghost use Rattle.ent_walk.specs.proofs_only.Comes.{Adds, Comes, Settles, in_walk};
ghost use Rattle.ent_walk.specs.proofs_only.Gathered.{Gathers, Tells};
ghost use Rattle.ent_walk.specs.proofs_only.Hops.{child_part, children_combined, in_set, only_child};
ghost use Rattle.ent_walk.specs.proofs_only.Hops.{set_after, set_children, set_target, settled_child};
ghost use Rattle.ent_walk.specs.Judged.{has_failed};
ghost use Rattle.ent_walk.specs.proofs_only.Judged.{or_nothing};
ghost use Rattle.ent_walk.specs.Only.{chosen_part};
ghost use Rattle.ent_walk.specs.proofs_only.Opened.{is_fit_left, left_part};
ghost use Rattle.ent_trace.specs.proofs_only.Path.{keys_of};
ghost use Rattle.ent_request.specs.Part.{settled};
ghost use Rattle.ent_walk.specs.proofs_only.Typed.{is_fit};

use crate::gather::{Gathering, no_children};
use crate::node::{has_failed, under};
use crate::only::Only;
use crate::opened::Opened;
use crate::target::Targeted;
use crate::walk::Walk;
use ent_combine::{PolicyAlg, Progress, RuleAlg};
use ent_policy::{Child, Kind, PolicySet};
use ent_request::{Answer, LookUps};
use ent_trace::Path;
use std::alloc::AllocError;

impl<'a, L: LookUps> Walk<'a, L> {
    // A child of a set, where the path leads from the root to the set, and so many references may be followed from here
    // on.
    #[cycle(child)]
    fn child(
        &mut self,
        hops: usize,
        path: &Path<'_>,
        child: &'a Child,
    ) -> Result<Option<Answer>, AllocError>
        requires fit { is_fit child.now ≡ true }
        ensures comes { IfOk result (λ a. Comes
            (in_walk L.looks self.old child_part hops (keys_of path.now) child.now)
            self.old self.new (or_nothing a)) }
    {
        let opened = self.open(hops, child)?;
        self.judge(path, opened)
    }

    // One child more, which is gathered, and whether it fixes the decision. What fails in it is passed over unless it
    // is Indeterminate.
    #[cycle(child)]
    fn next_child(
        &mut self,
        gathering: &mut Gathering,
        hops: usize,
        path: &Path<'_>,
        child: &'a Child,
    ) -> Result<Progress, AllocError>
        requires fit { is_fit child.now ≡ true }
        ensures gathered { OnOk result (Gathers gathering.old gathering.new
            (in_walk L.looks self.old settled_child hops (keys_of path.now) child.now).value) }
        ensures progress { IfOk result (Tells gathering.old
            (in_walk L.looks self.old settled_child hops (keys_of path.now) child.now).value) }
        ensures notes { OnOk result (Adds
            (in_walk L.looks self.old settled_child hops (keys_of path.now) child.now).notes
            self.old self.new) }
    {
        let was_named = self.notes.is_named();
        let opened = self.open(hops, child)?;
        if let Opened::Passed = opened {
            self.settle(was_named, false);
            return Ok(gathering.pass());
        }
        self.next_left(gathering, path, opened, was_named)
    }

    // The same of what is left of a child. It stands apart, since few children come so far.
    #[inline(never)]
    #[cycle(child)]
    fn next_left(
        &mut self,
        gathering: &mut Gathering,
        path: &Path<'_>,
        opened: Opened<'a>,
        was_named: bool,
    ) -> Result<Progress, AllocError>
        requires fit { is_fit_left opened ≡ true }
        ensures gathered { OnOk result (Gathers gathering.old gathering.new
            (in_walk L.looks self.old left_part (keys_of path.now) opened.entry).value) }
        ensures progress { IfOk result (Tells gathering.old
            (in_walk L.looks self.old left_part (keys_of path.now) opened.entry).value) }
        ensures notes { OnOk result (Settles was_named
            (in_walk L.looks self.old left_part (keys_of path.now) opened.entry) self.old self.new) }
    {
        let answer = self.judge(path, opened)?;
        self.settle(was_named, has_failed(&answer));
        gathering.take(answer)
    }

    // Whether the target of a set matches.
    pub(crate) fn set_target(&mut self, set: &'a PolicySet) -> Result<Targeted, AllocError>
        requires { target_is_typed set.now.target ≡ true }
        ensures comes { IfOk result (Comes
            (in_walk L.looks self.old set_target set.now) self.old self.new) }
    {
        self.enter(Kind::PolicySet, &set.id, &set.version)?;
        let targeted = self.target(&set.target)?;
        self.leave();
        Ok(targeted)
    }

    // What comes behind the target of a set.
    #[cycle(child)]
    pub(crate) fn set_after(
        &mut self,
        hops: usize,
        path: &Path<'_>,
        set: &'a PolicySet,
        targeted: Targeted,
    ) -> Result<Option<Answer>, AllocError>
        requires fit { list_all is_fit set.now.children ≡ true }
        requires room { length set.now.children ≤ 256 }
        requires given { given_is_typed [] set.now.given ≡ true }
        ensures comes { IfOk result (λ a. Comes
            (in_walk L.looks self.old set_after hops (keys_of path.now) set.now targeted)
            self.old self.new (or_nothing a)) }
    {
        self.enter(Kind::PolicySet, &set.id, &set.version)?;
        let answer = self.in_set(hops, path, set, targeted)?;
        self.leave();
        Ok(answer)
    }

    // The children are evaluated unless the target doesn't match, and behind them what the set gives itself, if it
    // matches.
    #[cycle(child)]
    #[tactic(auto, using(crate::proofs::Going::noting_both))]
    fn in_set(
        &mut self,
        hops: usize,
        path: &Path<'_>,
        set: &'a PolicySet,
        targeted: Targeted,
    ) -> Result<Option<Answer>, AllocError>
        requires fit { list_all is_fit set.now.children ≡ true }
        requires room { length set.now.children ≤ 256 }
        requires given { given_is_typed [] set.now.given ≡ true }
        ensures comes { IfOk result (λ a. Comes
            (in_walk L.looks self.old in_set hops (keys_of path.now) set.now targeted)
            self.old self.new (or_nothing a)) }
    {
        match targeted {
            Targeted::NoMatch => Ok(None),
            Targeted::Match => {
                let answer = self.settled_children(hops, path, set)?;
                if answer.is_none() {
                    return Ok(None);
                }
                self.finished(&[], &set.given, answer)
            }
            Targeted::Indeterminate(status) => {
                let answer = self.settled_children(hops, path, set)?;
                Ok(under(self.alloc, status, answer))
            }
        }
    }

    // The children of a set. What fails in them is passed over unless they come to Indeterminate.
    #[cycle(child)]
    fn settled_children(
        &mut self,
        hops: usize,
        path: &Path<'_>,
        set: &'a PolicySet,
    ) -> Result<Option<Answer>, AllocError>
        requires fit { list_all is_fit set.now.children ≡ true }
        requires room { length set.now.children ≤ 256 }
        ensures comes { IfOk result (λ a. Comes
            (settled has_failed (in_walk L.looks self.old set_children hops (keys_of path.now) set.now))
            self.old self.new (or_nothing a)) }
    {
        let was_named = self.notes.is_named();
        let answer = self.children_under(hops, path, set)?;
        self.settle(was_named, has_failed(&answer));
        Ok(answer)
    }

    // The children of a set.
    #[cycle(child)]
    fn children_under(
        &mut self,
        hops: usize,
        path: &Path<'_>,
        set: &'a PolicySet,
    ) -> Result<Option<Answer>, AllocError>
        requires fit { list_all is_fit set.now.children ≡ true }
        requires room { length set.now.children ≤ 256 }
        ensures comes { IfOk result (λ a. Comes
            (in_walk L.looks self.old set_children hops (keys_of path.now) set.now)
            self.old self.new (or_nothing a)) }
    {
        let here = Path::Below {
            above: &*path,
            kind: Kind::PolicySet,
            id: &set.id,
            version: &set.version,
        };
        match set.algorithm {
            PolicyAlg::Shared(algorithm) => self.children(
                hops,
                &here,
                algorithm,
                set.children.as_slice(),
            ),
            PolicyAlg::OnlyOne => self.only_one(hops, &here, set.children.as_slice()),
        }
    }

    // Children, up to the first that fixes the decision.
    #[cycle(child)]
    fn children(
        &mut self,
        hops: usize,
        path: &Path<'_>,
        algorithm: RuleAlg,
        children: &'a [Child],
    ) -> Result<Option<Answer>, AllocError>
        requires fit { list_all is_fit children.now ≡ true }
        ensures comes { IfOk result (λ a. Comes
            (in_walk L.looks self.old children_combined hops (keys_of path.now) algorithm children.now)
            self.old self.new (or_nothing a)) }
    {
        let mut gathering = no_children(self.alloc, algorithm);
        for child in children {
            let progress = self.next_child(&mut gathering, hops, path, child)?;
            if let Progress::Stop = progress {
                return gathering.finish(self.alloc, &mut self.notes, path, algorithm);
            }
        }
        gathering.finish(self.alloc, &mut self.notes, path, algorithm)
    }

    // The only child that applies.
    #[cycle(child)]
    #[tactic(auto, using(crate::proofs::Going::noting_both))]
    fn only_one(
        &mut self,
        hops: usize,
        path: &Path<'_>,
        children: &'a [Child],
    ) -> Result<Option<Answer>, AllocError>
        requires fit { list_all is_fit children.now ≡ true }
        requires room { length children.now ≤ 256 }
        ensures comes { IfOk result (λ a. Comes
            (in_walk L.looks self.old only_child hops (keys_of path.now) children.now)
            self.old self.new (or_nothing a)) }
    {
        let only = self.choose(hops, children)?;
        self.chosen_child(hops, path, children, only)
    }

    // The chosen child alone is evaluated.
    #[cycle(child)]
    fn chosen_child(
        &mut self,
        hops: usize,
        path: &Path<'_>,
        children: &'a [Child],
        only: Only,
    ) -> Result<Option<Answer>, AllocError>
        requires fit { list_all is_fit children.now ≡ true }
        ensures comes { IfOk result (λ a. Comes
            (chosen_part (map (in_walk L.looks self.old child_part hops (keys_of path.now)) children.now) only)
            self.old self.new (or_nothing a)) }
    {
        match only {
            Only::Nobody => Ok(None),
            Only::Bad(status) => Ok(Some(Answer::bad(self.alloc, status))),
            Only::Child(place) => match children.get(place) {
                None => Ok(None),
                Some(child) => self.child(hops, path, child),
            },
        }
    }
}
