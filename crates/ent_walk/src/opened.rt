//! Children of which the target was looked at, and what is left of them.

ghost use Rattle.std.specs.Prelude.{◌≡◌, ◌≤◌, ◌+◌, ◌*◌, IfOk, OnOk, true};
ghost use Rattle.ent_policy.specs.Children.{as_child};
ghost use Rattle.ent_policy.specs.Depths.{depth};
ghost use Rattle.ent_policy.specs.Typing.{policy_is_typed};
ghost use Rattle.ent_policy.specs.declared.document.Child.{size-Child};
ghost use Rattle.ent_policy.specs.declared.document.PolicySet.{size-PolicySet};
ghost use Rattle.ent_walk.specs.proofs_only.Comes.{Comes, Keeps, in_walk};
ghost use Rattle.ent_walk.specs.proofs_only.Hops.{child_part, followed_part, reference_part, set_part};
ghost use Rattle.ent_walk.specs.proofs_only.Judged.{or_nothing};
ghost use Rattle.ent_walk.specs.Node.{policy_part};
ghost use Rattle.ent_walk.specs.proofs_only.Opened.{Leaves, is_fit_left, left_part, worth, worth_of_hop};
ghost use Rattle.ent_trace.specs.proofs_only.Path.{keys_of};
ghost use Rattle.ent_walk.specs.proofs_only.Typed.{is_fit, set_is_fit};

use crate::target::Targeted;
use crate::walk::Walk;
use ent_policy::{Child, Policy, PolicySet, Reference, Tree};
use ent_request::{Answer, LookUps, Reason};
use ent_trace::Path;
use std::alloc::AllocError;

// A child of which the target was looked at. Most don't match, and then nothing is left: so no answer is handed on for
// them.
#[derive(Clone, Copy)]
pub(crate) enum Opened<'a> {
    // The target doesn't match.
    Passed,
    // A reference that isn't resolved.
    Unresolved,
    Policy(&'a Policy, Targeted),
    // A set, where so many references may be followed on the way down from it.
    Set(&'a PolicySet, usize, Targeted),
}

impl<'a, L: LookUps> Walk<'a, L> {
    // A child, where so many references may be followed on the way down from here.
    #[inline(always)]
    pub(crate) fn open(&mut self, hops: usize, child: &'a Child) -> Result<Opened<'a>, AllocError>
        requires fit { is_fit child.now ≡ true }
        ensures left { IfOk result (in_walk L.looks self.old Leaves
            (λ looks request path. child_part looks request hops path child.now)
            self.old.notes self.new.notes) }
        ensures keeps { OnOk result (Keeps self.old self.new) }
        ensures fit { IfOk result (λ o. is_fit_left o ≡ true) }
        ensures worth { IfOk result (λ o. worth o ≤ hops * worth_of_hop + 8 * size-Child child.now) }
    {
        match child {
            Child::Policy(policy) => self.open_policy(policy),
            Child::Set(set) => self.open_set(hops, set),
            Child::Reference(reference) => self.open_reference(hops, reference),
        }
    }

    // A reference.
    #[inline(always)]
    fn open_reference(
        &mut self,
        hops: usize,
        reference: &Reference,
    ) -> Result<Opened<'a>, AllocError>
        ensures left { IfOk result (in_walk L.looks self.old Leaves
            (λ looks request path. reference_part looks request hops path reference.now)
            self.old.notes self.new.notes) }
        ensures keeps { OnOk result (Keeps self.old self.new) }
        ensures fit { IfOk result (λ o. is_fit_left o ≡ true) }
        ensures worth { IfOk result (λ o. worth o ≤ hops * worth_of_hop) }
    {
        if hops == 0 {
            self.fail(Reason::TooFar(reference))?;
            return Ok(Opened::Unresolved);
        }
        self.open_followed(hops - 1, reference)
    }

    // The document that a reference names, where so many may be followed on the way down from there.
    #[inline(always)]
    pub(crate) fn open_followed(
        &mut self,
        hops: usize,
        reference: &Reference,
    ) -> Result<Opened<'a>, AllocError>
        ensures left { IfOk result (in_walk L.looks self.old Leaves
            (λ looks request path. followed_part looks request hops path reference.now)
            self.old.notes self.new.notes) }
        ensures keeps { OnOk result (Keeps self.old self.new) }
        ensures fit { IfOk result (λ o. is_fit_left o ≡ true) }
        ensures worth { IfOk result (λ o. worth o ≤ hops * worth_of_hop + 8 * 31) }
    {
        match self.look_up(reference)? {
            None => {
                self.fail(Reason::Unfound(reference))?;
                Ok(Opened::Unresolved)
            }
            Some(document) => self.open_tree(hops, document.tree()),
        }
    }

    // A document.
    #[inline(always)]
    fn open_tree(&mut self, hops: usize, tree: &'a Tree) -> Result<Opened<'a>, AllocError>
        requires fit { is_fit (as_child tree.now) ≡ true }
        requires shallow { depth (as_child tree.now) ≤ 16 }
        ensures left { IfOk result (in_walk L.looks self.old Leaves
            (λ looks request path. child_part looks request hops path (as_child tree.now))
            self.old.notes self.new.notes) }
        ensures keeps { OnOk result (Keeps self.old self.new) }
        ensures fit { IfOk result (λ o. is_fit_left o ≡ true) }
        ensures worth { IfOk result (λ o. worth o ≤ hops * worth_of_hop + 8 * 31) }
    {
        match tree {
            Tree::Policy(policy) => self.open_policy(policy),
            Tree::Set(set) => self.open_set(hops, set),
        }
    }

    // A policy.
    #[inline(always)]
    #[tactic(auto, using(crate::proofs::Typing::both_true), unfolding(ent_policy::specs::Typing::policy_is_typed))]
    fn open_policy(&mut self, policy: &'a Policy) -> Result<Opened<'a>, AllocError>
        requires typed { policy_is_typed policy.now ≡ true }
        ensures left { IfOk result (in_walk L.looks self.old Leaves
            (λ looks request path. policy_part looks request path policy.now)
            self.old.notes self.new.notes) }
        ensures keeps { OnOk result (Keeps self.old self.new) }
        ensures fit { IfOk result (λ o. is_fit_left o ≡ true) }
        ensures worth { IfOk result (λ o. worth o ≡ 0) }
    {
        let targeted = self.policy_target(policy)?;
        if let Targeted::NoMatch = targeted {
            return Ok(Opened::Passed);
        }
        Ok(Opened::Policy(policy, targeted))
    }

    // A policy set.
    fn open_set(&mut self, hops: usize, set: &'a PolicySet) -> Result<Opened<'a>, AllocError>
        requires fit { set_is_fit set.now ≡ true }
        ensures left { IfOk result (in_walk L.looks self.old Leaves
            (λ looks request path. set_part looks request hops path set.now)
            self.old.notes self.new.notes) }
        ensures keeps { OnOk result (Keeps self.old self.new) }
        ensures fit { IfOk result (λ o. is_fit_left o ≡ true) }
        ensures worth { IfOk result (λ o. worth o ≤ hops * worth_of_hop + 8 * size-PolicySet set.now) }
    {
        let targeted = self.set_target(set)?;
        if let Targeted::NoMatch = targeted {
            return Ok(Opened::Passed);
        }
        Ok(Opened::Set(set, hops, targeted))
    }

    // What is left of a child, where the path leads from the root to what it stands in.
    #[cycle(child)]
    #[tactic(auto, using(crate::proofs::Typing::both_true), unfolding(ent_policy::specs::Typing::policy_is_typed))]
    pub(crate) fn judge(
        &mut self,
        path: &Path<'_>,
        opened: Opened<'a>,
    ) -> Result<Option<Answer>, AllocError>
        requires fit { is_fit_left opened ≡ true }
        ensures comes { IfOk result (λ a. Comes
            (in_walk L.looks self.old left_part (keys_of path.now) opened.entry)
            self.old self.new (or_nothing a)) }
    {
        match opened {
            Opened::Passed => Ok(None),
            Opened::Unresolved => Ok(Some(Answer::unresolved(self.alloc))),
            Opened::Policy(policy, targeted) => { self.policy_after(path, policy, targeted) }
            Opened::Set(set, hops, targeted) => { self.set_after(hops, path, set, targeted) }
        }
    }
}
