//! How many cells have each decision.

ghost use Rattle.std.specs.Prelude.{◌≡◌, ◌+◌, ◌-◌, ◌<◌, ◌^◌, length};
ghost use Rattle.ent_report.specs.proofs_only.Counting.{one_more, total};
ghost use Rattle.ent_report.specs.Reports.{counts_in};
ghost use Rattle.ent_table.specs.Left.{cells_left};

use ent_combine::Outcome;
use ent_eval::Evaluates;
use ent_table::Cells;

/// How many cells have each decision. An Indeterminate counts as one whatever it could have been.
#[derive(Clone, Copy, Debug, PartialEq, Eq)]
pub struct Counts {
    /// How many are Deny.
    pub deny: u64,
    /// How many are Indeterminate, of any kind.
    pub indeterminate: u64,
    /// How many are NotApplicable.
    pub not_applicable: u64,
    /// How many are Permit.
    pub permit: u64,
}

/// With one decision more.
fn with_one(counts: Counts, decision: Outcome) -> Counts
    requires { total counts < 2 ^ 64 - 1 }
    ensures { result ≡ one_more counts decision }
{
    match decision {
        Outcome::Deny => Counts {
            deny: counts.deny + 1,
            ..counts
        },
        Outcome::Ind(_) => Counts {
            indeterminate: counts.indeterminate + 1,
            ..counts
        },
        Outcome::NotApplicable => Counts {
            not_applicable: counts.not_applicable + 1,
            ..counts
        },
        Outcome::Permit => Counts {
            permit: counts.permit + 1,
            ..counts
        },
    }
}

/// The counts of the cells that are left. It takes no memory.
pub(crate) fn counted<E: Evaluates>(cells: Cells<'_, E>) -> Counts
    requires { length (cells_left cells) < 2 ^ 64 }
    ensures { result ≡ counts_in (cells_left cells.entry) }
{
    let mut counts = Counts {
        deny: 0,
        indeterminate: 0,
        not_applicable: 0,
        permit: 0,
    };
    for (_, _, _, answer) in cells {
        counts = with_one(counts, answer.decision);
    }
    counts
}
