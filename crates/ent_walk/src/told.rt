//! What children tell of a decision.

ghost use Rattle.std.specs.Prelude.{◌≡◌, [], false, IfOk, OnOk};
ghost use Rattle.ent_walk.specs.proofs_only.Gathered.{told_at, told_more};
ghost use Rattle.ent_walk.specs.Judged.{has_default};
ghost use Rattle.ent_trace.specs.proofs_only.Path.{keys_of};
ghost use Rattle.ent_request.specs.declared.answer.Status.TheVariants.{Okay};

use ent_combine::{Outcome, RuleAlg};
use ent_request::{Answer, Given, Status, WhyEntry};
use ent_trace::{Notes, Path};
use ent_values::Items;
use std::alloc::{AllocError, Global};

/// What the children with one decision tell of it, in document order.
#[derive(Drop)]
pub struct ToldChildren {
    /// Whether there is such a child.
    pub any: bool,
    pub why: Items<WhyEntry>,
    pub obligations: Items<Given>,
    pub advice: Items<Given>,
}

impl ToldChildren {
    /// No children.
    ///
    /// Its contract is an equation.
    pub fn nothing(alloc: Global) -> ToldChildren
        ensures { result ≡ record { any = false; why = []; obligations = []; advice = [] } }
    {
        ToldChildren {
            any: false,
            why: Items::new(alloc),
            obligations: Items::new(alloc),
            advice: Items::new(alloc),
        }
    }

    /// One child more. Its lists are moved, not copied.
    ///
    /// Its contract is an equation but for memory.
    pub fn add(&mut self, more: ToldChildren) -> Result<(), AllocError>
        ensures { OnOk result (self.new ≡ told_more self.old more) }
    {
        self.any = true;
        self.why.append(more.why)?;
        self.obligations.append(more.obligations)?;
        self.advice.append(more.advice)
    }

    /// The same with the entry of the element at the end of the path behind it, where that decides by default.
    ///
    /// Its contract is an equation but for memory.
    pub fn with_default(
        self,
        alloc: Global,
        notes: &mut Notes,
        here: &Path<'_>,
        algorithm: RuleAlg,
    ) -> Result<ToldChildren, AllocError>
        ensures told { IfOk result (λ t. t ≡ told_at (keys_of here.now) algorithm self) }
        ensures notes { notes.new ≡ notes.old }
    {
        let ToldChildren {
            any,
            mut why,
            obligations,
            advice,
        } = self;
        if has_default(algorithm) && !any {
            let entry = WhyEntry {
                path: notes.path(alloc, here)?,
                rule: None,
            };
            why.append(Items::of_one(alloc, entry)?)?;
        }
        Ok(ToldChildren {
            any,
            why,
            obligations,
            advice,
        })
    }

    /// An element with that decision, of which this is told.
    ///
    /// Its contract is an equation.
    pub fn decided(self, decision: Outcome) -> Answer
        ensures { result ≡ record {
          decision = decision;
          status = Okay;
          why = self.why;
          obligations = self.obligations;
          advice = self.advice;
        } }
    {
        Answer {
            decision,
            status: Status::Okay,
            why: self.why,
            obligations: self.obligations,
            advice: self.advice,
        }
    }
}

// Whether an algorithm decides where no child does.
fn has_default(algorithm: RuleAlg) -> bool
    ensures { result ≡ has_default algorithm }
{
    match algorithm {
        RuleAlg::DenyUnlessPermit | RuleAlg::PermitUnlessDeny => true,
        _ => false,
    }
}
