//! The evaluation of a request of the table.

ghost use Rattle.std.specs.Prelude.{◌≡◌, IfOk, OnOk};
ghost use Rattle.ent_eval.specs.Evaluator.{OnlyCounts};
ghost use Rattle.ent_eval.specs.LooksOf.{looks_of};
ghost use Rattle.ent_request.specs.Questions.{AreNumbers, BeginsWith};
ghost use Rattle.ent_cells.specs.Cell.{says};
ghost use Rattle.ent_cells.specs.Count.{Counts, CountsAtMost};
ghost use Rattle.ent_cells.specs.proofs_only.Grouping.{said_in};

use ent_eval::{Evaluates, ListedEvaluation, Who};
use std::alloc::AllocError;

/// Evaluates the request of a cell, once, and gives each question that is asked for it a number, if it has none.
pub(crate) fn evaluate<E: Evaluates>(
    evaluator: &mut E,
    who: &Who,
) -> Result<ListedEvaluation, AllocError>
    ensures said { IfOk result (λ e. said_in (E.evaluator evaluator.new).questions who.now e
        ≡ says (looks_of (E.evaluator evaluator.old).pdp) who.now) }
    ensures within { IfOk result (λ e. AreNumbers (E.evaluator evaluator.new).questions e.asked) }
    ensures begins { BeginsWith (E.evaluator evaluator.new).questions (E.evaluator evaluator.old).questions }
    ensures counted { OnOk result
        (Counts (E.evaluator evaluator.old).pdp.evaluations (E.evaluator evaluator.new).pdp.evaluations 1) }
    ensures bound { CountsAtMost
        (E.evaluator evaluator.old).pdp.evaluations (E.evaluator evaluator.new).pdp.evaluations 1 }
    ensures rest { OnlyCounts (E.evaluator evaluator.old).pdp (E.evaluator evaluator.new).pdp }
{
    evaluator.evaluate(who)
}
