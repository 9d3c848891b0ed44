//! Which child of several applies.

ghost use Rattle.std.specs.Prelude.{◌≡◌, ◌≤◌, IfOk, OnOk, length, map, true};
ghost use Rattle.std.specs.List.{list_all};
ghost use Rattle.ent_walk.specs.proofs_only.Comes.{Adds, Comes, in_walk};
ghost use Rattle.ent_walk.specs.proofs_only.Hops.{child_target};
ghost use Rattle.ent_walk.specs.Only.{choice_part, result_of_target};
ghost use Rattle.ent_walk.specs.proofs_only.Only.{second_match, status_of_target};
ghost use Rattle.ent_walk.specs.proofs_only.Typed.{is_fit};
ghost use Rattle.ent_walk.specs.declared.only.Only.TheVariants.{Bad};

use crate::only::Only;
use crate::target::Targeted;
use crate::walk::Walk;
use ent_combine::{Choice, Chooser, Progress, TargetResult};
use ent_policy::Child;
use ent_request::{LookUps, Reason, Status};
use std::alloc::AllocError;

impl<'a, L: LookUps> Walk<'a, L> {
    // The child whose target alone matches: the targets are looked at up to the first that is Indeterminate or the
    // second that matches.
    pub(crate) fn choose(&mut self, hops: usize, children: &'a [Child]) -> Result<Only, AllocError>
        requires fit { list_all is_fit children.now ≡ true }
        requires room { length children.now ≤ 256 }
        ensures comes { IfOk result (Comes
            (choice_part (map (in_walk L.looks self.old child_target hops) children.now))
            self.old self.new) }
    {
        let mut chooser = Chooser::new();
        for child in children {
            let targeted = self.target_of(hops, child)?;
            if let Progress::Stop = chooser.take(result_of(targeted)) {
                return self.spoiled(targeted);
            }
        }
        match chooser.finish() {
            Choice::Nobody => Ok(Only::Nobody),
            Choice::Only(place) => Ok(Only::Child(place)),
            Choice::Bad => unreachable!(),
        }
    }

    // What a target comes to that is Indeterminate or the second that matches.
    fn spoiled(&mut self, targeted: Targeted) -> Result<Only, AllocError>
        ensures value { IfOk result (λ only. only ≡ Bad (status_of_target targeted)) }
        ensures notes { OnOk result (Adds (second_match targeted) self.old self.new) }
    {
        match targeted {
            Targeted::Indeterminate(status) => Ok(Only::Bad(status)),
            _ => {
                self.fail(Reason::Several)?;
                Ok(Only::Bad(Status::ProcessingError))
            }
        }
    }

    // The target of a child.
    #[tactic(auto, using(crate::proofs::Typing::both_true), unfolding(ent_policy::specs::Typing::policy_is_typed))]
    fn target_of(&mut self, hops: usize, child: &'a Child) -> Result<Targeted, AllocError>
        requires { is_fit child.now ≡ true }
        ensures comes { IfOk result (Comes
            (in_walk L.looks self.old child_target hops child.now) self.old self.new) }
    {
        match child {
            Child::Policy(policy) => self.policy_target(policy),
            Child::Set(set) => self.set_target(set),
            Child::Reference(reference) => self.reference_target(hops, reference),
        }
    }
}

// What a child is chosen by.
fn result_of(targeted: Targeted) -> TargetResult
    ensures { result ≡ result_of_target targeted }
{
    match targeted {
        Targeted::Match => TargetResult::Match,
        Targeted::NoMatch => TargetResult::NoMatch,
        Targeted::Indeterminate(_) => TargetResult::Indeterminate,
    }
}
