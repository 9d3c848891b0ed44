//! How many documents may be followed from others.

ghost use Rattle.std.specs.Prelude.{◌≡◌, ◌+◌, ◌-◌, ◌^◌, IfOk, get_or, map, min};
ghost use Rattle.lint_links.specs.proofs_only.Rows.{counted_row, counts_after};

use std::alloc::{AllocError, Global};

/// One more and so many, as far as a number of 64 bits goes.
fn plus(count: u64, more: u64) -> u64
    ensures { result ≡ min (count + (1 + more)) (2 ^ 64 - 1) }
{
    if more < u64::MAX - count {
        count + 1 + more
    } else {
        u64::MAX
    }
}

/// The count of that number.
pub(crate) fn count_at(counts: &[u64], number: usize) -> u64
    ensures { result ≡ get_or counts.now number 0 }
{
    match counts.get(number) {
        Some(count) => *count,
        None => 0,
    }
}

/// The documents of these numbers, and those that may be followed from them.
fn counted_row(counts: &[u64], row: &[usize]) -> u64
    ensures { result ≡ counted_row (2 ^ 64 - 1) counts.now row.now }
{
    let mut count = 0;
    for number in row {
        count = plus(count, count_at(counts, *number));
    }
    count
}

/// One reference more.
fn further(alloc: Global, rows: &[Vec<usize>], counts: &[u64]) -> Result<Vec<u64>, AllocError>
    ensures { IfOk result (λ next. next.items ≡ map (λ row. counted_row (2 ^ 64 - 1) counts.now row.items) rows.now) }
{
    let mut next = Vec::with_capacity(alloc, rows.len())?;
    for row in rows {
        next.push(counted_row(counts, row.as_slice()))?;
    }
    Ok(next)
}

/// None for each document.
fn none(alloc: Global, rows: &[Vec<usize>]) -> Result<Vec<u64>, AllocError>
    ensures { IfOk result (λ counts. counts.items ≡ map (λ _. 0) rows.now) }
{
    let mut counts = Vec::with_capacity(alloc, rows.len())?;
    for _ in rows {
        counts.push(0)?;
    }
    Ok(counts)
}

/// A number for each document: how many may be followed from it over at most that many references.
///
/// # Errors
///
/// `AllocError` if memory runs out.
///
/// Its contract is an equation but for memory.
pub fn counts_after(alloc: Global, rows: &[Vec<usize>], hops: usize) -> Result<Vec<u64>, AllocError>
    ensures { IfOk result (λ counts. counts.items ≡ counts_after (2 ^ 64 - 1) (map (λ row. row.items) rows.now) hops) }
{
    let mut counts = none(alloc, rows)?;
    for _ in 0..hops {
        counts = further(alloc, rows, counts.as_slice())?;
    }
    Ok(counts)
}
