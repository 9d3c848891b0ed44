//! Counts and changes of several parts, summed.

ghost use Rattle.std.specs.Prelude.{◌≡◌, ◌≤◌, ◌^◌, IfNone, IfSome, sum};
ghost use Rattle.law_split.specs.Merged.{AreChangesOfTheWhole, AreCountsOfTheWhole, cells_in, plus, summed};

use ent_report::Counts;

/// The sums of two counts.
fn plus(one: Counts, other: Counts) -> Option<Counts>
    ensures sum { IfSome result (λ counts. counts ≡ plus one other) }
    ensures many { IfNone result (2 ^ 64 ≤ cells_in (plus one other)) }
{
    Some(Counts {
        deny: one.deny.checked_add(other.deny)?,
        indeterminate: one.indeterminate.checked_add(other.indeterminate)?,
        not_applicable: one.not_applicable.checked_add(other.not_applicable)?,
        permit: one.permit.checked_add(other.permit)?,
    })
}

/// How many cells of the whole have each decision, by the counts of all parts. None only if there are 2^64 cells or
/// more.
///
/// Its contract is an equation.
pub fn sum_counts(parts: &[Counts]) -> Option<Counts>
    ensures sum { IfSome result (λ counts. counts ≡ summed parts.now) }
    ensures whole { IfSome result (AreCountsOfTheWhole parts.now) }
    ensures many { IfNone result (2 ^ 64 ≤ cells_in (summed parts.now)) }
{
    let mut counts = Counts {
        deny: 0,
        indeterminate: 0,
        not_applicable: 0,
        permit: 0,
    };
    for part in parts {
        counts = plus(counts, *part)?;
    }
    Some(counts)
}

/// How many cells of the whole have another answer than before, by how many have in each part: none in a part that was
/// told nothing. None only if there are 2^64 or more.
///
/// Its contract is an equation.
pub fn sum_changes(parts: &[u64]) -> Option<u64>
    ensures sum { IfSome result (λ changes. changes ≡ sum parts.now) }
    ensures whole { IfSome result (AreChangesOfTheWhole parts.now) }
    ensures many { IfNone result (2 ^ 64 ≤ sum parts.now) }
{
    let mut changes: u64 = 0;
    for part in parts {
        changes = changes.checked_add(*part)?;
    }
    Some(changes)
}
