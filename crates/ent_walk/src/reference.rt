//! The targets of references, and the documents that they name.

ghost use Rattle.std.specs.Prelude.{◌≡◌, [], ◌∷◌, IfOk, OnOk, true};
ghost use Rattle.std.specs.Option.{option_copied};
ghost use Rattle.ent_policy.specs.Children.{as_child};
ghost use Rattle.ent_request.specs.Note.{asks};
ghost use Rattle.ent_walk.specs.proofs_only.Comes.{Adds, Comes, in_walk};
ghost use Rattle.ent_walk.specs.proofs_only.Hops.{child_target, reference_target};
ghost use Rattle.ent_walk.specs.proofs_only.Typed.{is_fit};
ghost use Rattle.ent_request.specs.declared.question.Question.TheVariants.{Ref};

use crate::target::Targeted;
use crate::walk::Walk;
use ent_policy::{Document, Reference, Tree};
use ent_request::{LookUps, Reason, Status};
use std::alloc::AllocError;

impl<'a, L: LookUps> Walk<'a, L> {
    // The target of a reference: that of the document that it names.
    pub(crate) fn reference_target(
        &mut self,
        hops: usize,
        reference: &Reference,
    ) -> Result<Targeted, AllocError>
        ensures comes { IfOk result (Comes
            (in_walk L.looks self.old reference_target hops reference.now) self.old self.new) }
    {
        if hops == 0 {
            self.fail(Reason::TooFar(reference))?;
            return Ok(Targeted::Indeterminate(Status::ProcessingError));
        }
        match self.look_up(reference)? {
            None => {
                self.fail(Reason::Unfound(reference))?;
                Ok(Targeted::Indeterminate(Status::ProcessingError))
            }
            Some(document) => self.tree_target(hops - 1, document.tree()),
        }
    }

    // The target of a document, whatever it is that its references come to.
    #[tactic(auto, using(crate::proofs::Typing::both_true), unfolding(ent_policy::specs::Typing::policy_is_typed))]
    fn tree_target(&mut self, hops: usize, tree: &'a Tree) -> Result<Targeted, AllocError>
        requires { is_fit (as_child tree.now) ≡ true }
        ensures comes { IfOk result (Comes
            (in_walk L.looks self.old child_target hops (as_child tree.now)) self.old self.new) }
    {
        match tree {
            Tree::Policy(policy) => self.policy_target(policy),
            Tree::Set(set) => self.set_target(set),
        }
    }

    // The document that a reference names. The question is noted.
    #[inline(always)]
    pub(crate) fn look_up(
        &mut self,
        reference: &Reference,
    ) -> Result<Option<&'a Document>, AllocError>
        ensures found { IfOk result (λ d. option_copied d ≡ (L.looks self.old.lender.held).document reference.now) }
        ensures notes { OnOk result (Adds (asks (Ref reference.now) ∷ []) self.old self.new) }
    {
        self.notes.note_reference(self.alloc, reference)?;
        let held = self.lender.held();
        Ok(held.document(reference))
    }
}
