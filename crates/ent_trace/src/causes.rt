//! What is told of the parts that failed.

ghost use Rattle.std.specs.Prelude.{◌≡◌, ◌∷◌, ◌++◌, ◌-◌, [], None, OnOk, length, take};
ghost use Rattle.ent_trace.specs.proofs_only.Met.{with_failing};
ghost use Rattle.ent_request.specs.Note.{status_of};
ghost use Rattle.ent_trace.specs.proofs_only.Noted.{with_more};
ghost use Rattle.ent_request.specs.proofs_only.Reason.{what_of};

use crate::distinct::Distinct;
use crate::trail::Trail;
use ent_policy::{Kind, Version};
use ent_request::Reason;
use ent_values::Text;
use std::alloc::{AllocError, Global};

// Where an evaluation is, and what failed so far, each cause once: the policies from the root on, and the rule.
#[derive(Drop)]
pub(crate) struct Causes {
    pub(crate) path: Trail,
    pub(crate) rule: Option<Text>,
    pub(crate) told: Distinct,
}

impl Causes {
    // Nothing failed so far. Nothing is allocated.
    pub(crate) fn none(alloc: Global) -> Causes
        ensures { result ≡ record { path = []; rule = None; told = record { causes = []; named = None } } }
    {
        Causes {
            path: Trail::new(alloc),
            rule: None,
            told: Distinct::new(alloc),
        }
    }

    // Something failed.
    #[tactic(auto, using(crate::proofs::MetBefore::failed_here))]
    pub(crate) fn add(&mut self, alloc: Global, reason: Reason<'_>) -> Result<(), AllocError>
        ensures { OnOk result (self.new ≡ with_more with_failing self.old (record {
          path = [];
          rule = None;
          status = status_of (what_of reason.entry);
          what = what_of reason.entry;
        })) }
    {
        self.told.note(alloc, &self.path, &self.rule, reason)?;
        Ok(())
    }

    // Goes into a policy or a set.
    pub(crate) fn enter(
        &mut self,
        alloc: Global,
        kind: Kind,
        id: &Text,
        version: &Version,
    ) -> Result<(), AllocError>
        ensures { OnOk result (self.new ≡ record self.old {
          path = self.old.path ++ record { kind = kind; id = id.now; version = version.now } ∷ [];
        }) }
    {
        self.path.enter(alloc, kind, id, version)
    }

    // And out of it.
    pub(crate) fn leave(&mut self)
        ensures { self.new ≡ record self.old { path = take (length self.old.path - 1) self.old.path } }
    {
        self.path.leave();
    }
}
