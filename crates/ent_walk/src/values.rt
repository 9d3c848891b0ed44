//! The values of a designator, as a walk has them.

ghost use Rattle.std.specs.Prelude.{IfOk, OnOk};
ghost use Rattle.ent_request.specs.Sources.{demanded, missing};
ghost use Rattle.ent_walk.specs.proofs_only.Comes.{Adds, Comes, bag_part, in_walk};

use crate::walk::Walk;
use ent_policy::Designator;
use ent_request::{LentBag, LookUps, Reason};
use ent_values::Value;
use std::alloc::AllocError;

impl<'a, L: LookUps> Walk<'a, L> {
    // The values of a designator: the request's own, or else those of its source. The question is noted, and that
    // values are missing, where there are none and one must be present.
    #[tactic(auto, using(crate::proofs::Going::noting_both))]
    pub(crate) fn demanded(&mut self, designator: &Designator) -> Result<LentBag<'a>, AllocError>
        ensures comes { IfOk result (Comes
            (bag_part designator.now.datatype (in_walk L.looks self.old demanded designator.now))
            self.old self.new) }
    {
        self.notes.note_values(self.alloc, designator)?;
        let bag = self.lender.bag(self.alloc, designator)?;
        self.demand(designator, bag.values())?;
        Ok(bag)
    }

    // Notes that values are missing, where there are none and one must be present.
    fn demand(&mut self, designator: &Designator, values: &[Value]) -> Result<(), AllocError>
        ensures { OnOk result (Adds (missing designator.now values.now) self.old self.new) }
    {
        if designator.must_be_present && values.is_empty() {
            return self.fail(Reason::Missing(designator));
        }
        Ok(())
    }
}
