//! Where the references of documents lead.

ghost use Rattle.std.specs.Prelude.{◌≡◌, ◌++◌, ◌-◌, ◌^◌, IfOk, OnOk, Some, false, get_or, map, min, true};
ghost use Rattle.std.specs.FinMap.{entries};
ghost use Rattle.std.specs.Option.{option_map, option_to_list};
ghost use Rattle.ent_finder.specs.Finding.{most_recent, names};
ghost use Rattle.ent_finder.specs.Slots.{held};
ghost use Rattle.lint_links.specs.Root.{followed};
ghost use Rattle.lint_links.specs.Together.{has_chain, is_endless};
ghost use Rattle.lint_links.specs.proofs_only.Found.{AreFound};
ghost use Rattle.lint_links.specs.proofs_only.Rows.{IsRow, entry_of, flags_after, is_one_set, leads, numbered};
ghost use Rattle.lint_links.specs.proofs_only.Rows.{rows_lead};

use crate::counts::counts_after;
use crate::found::FoundDocuments;
use crate::held::{Held, held_in};
use crate::placed::references_of;
use ent_finder::{MapDocs, PolicyFinderModule};
use ent_policy::{Document, Reference};
use std::alloc::{AllocError, Global};

/// Where the references of the documents of a module lead. Each of the lists has one member for each document, in the
/// order of their keys.
#[derive(Drop)]
pub struct Links {
    /// The numbers of the documents that its references find, in the order of the keys.
    pub rows: Vec<Vec<usize>>,
    /// Whether a chain of as many references begins in it as was asked for.
    pub long: Vec<bool>,
    /// Whether its references lead on without end, since they lead into a circle.
    pub endless: Vec<bool>,
    /// How many documents may be followed from it over at most so many references as was asked for.
    pub followed: Vec<u64>,
    /// Which documents the references find.
    pub found: FoundDocuments,
}

/// So many references are followed one after the other, from the document of the root on.
pub const MOST_HOPS: usize = 6;

/// Whether a reference names a document.
fn is_named(one: &Held<'_>, reference: &Reference) -> bool
    ensures { result ≡ names reference.now one.now.key.now }
{
    reference.is_of(one.key) && reference.constraints.meets(&one.key.version)
}

/// The number of the document that a reference finds, if it finds one.
pub(crate) fn number_found(docs: &MapDocs, all: &[Held<'_>], reference: &Reference) -> Option<usize>
    requires { map entry_of all.now ≡ entries (held docs.now) }
    ensures { option_map (numbered (entries (held docs.now))) result
        ≡ option_map Some (most_recent reference.now (held docs.now)) }
{
    docs.find_reference(reference)?;
    let mut found = None;
    for (number, one) in all.iter().enumerate() {
        if is_named(one, reference) {
            found = Some(number);
        }
    }
    found
}

/// Puts a number last, if there is one.
fn put(row: &mut Vec<usize>, number: Option<usize>) -> Result<(), AllocError>
    ensures { OnOk result (row.new.items ≡ row.old.items ++ option_to_list number) }
{
    if let Some(number) = number {
        row.push(number)?;
    }
    Ok(())
}

/// The numbers of the documents that the references of a document find.
fn row(
    alloc: Global,
    docs: &MapDocs,
    all: &[Held<'_>],
    found: &mut FoundDocuments,
    document: &Document,
) -> Result<Vec<usize>, AllocError>
    requires listed { map entry_of all.now ≡ entries (held docs.now) }
    requires found { AreFound (held docs.now) found.old }
    ensures row { IfOk result (λ row. IsRow (held docs.now) document.now row.items) }
    ensures found { OnOk result (AreFound (held docs.now) found.new) }
{
    let placed = references_of(alloc, document)?;
    let mut row = Vec::new(alloc);
    let placed = placed.as_slice();
    for one in placed {
        let number = found.number(alloc, docs, all, &one.reference)?;
        put(&mut row, number)?;
    }
    Ok(row)
}

/// For each document the numbers of those that its references find.
fn rows(
    alloc: Global,
    docs: &MapDocs,
    all: &[Held<'_>],
    found: &mut FoundDocuments,
) -> Result<Vec<Vec<usize>>, AllocError>
    requires listed { map entry_of all.now ≡ entries (held docs.now) }
    requires found { AreFound (held docs.now) found.old }
    ensures rows { IfOk result (λ rows.
        rows_lead (held docs.now) (map (λ row. row.items) rows.items) ≡ leads (held docs.now)) }
    ensures found { OnOk result (AreFound (held docs.now) found.new) }
{
    let mut rows = Vec::new(alloc);
    for one in all {
        let row = row(alloc, docs, all, found, one.document)?;
        rows.push(row)?;
    }
    Ok(rows)
}

/// Whether the flag of that number is set.
pub(crate) fn is_set(flags: &[bool], number: usize) -> bool
    ensures { result ≡ get_or flags.now number false }
{
    match flags.get(number) {
        Some(flag) => *flag,
        None => false,
    }
}

/// Whether one of the documents of these numbers has its flag set.
fn is_one_set(flags: &[bool], row: &[usize]) -> bool
    ensures { result ≡ is_one_set flags.now row.now }
{
    for number in row {
        if is_set(flags, *number) {
            return true;
        }
    }
    false
}

/// A flag for each document, set where it leads to one whose flag is set.
fn further(alloc: Global, rows: &[Vec<usize>], flags: &[bool]) -> Result<Vec<bool>, AllocError>
    ensures { IfOk result (λ next. next.items ≡ map (λ row. is_one_set flags.now row.items) rows.now) }
{
    let mut next = Vec::with_capacity(alloc, rows.len())?;
    for row in rows {
        next.push(is_one_set(flags, row.as_slice()))?;
    }
    Ok(next)
}

/// A flag for each document, and each is set.
fn all_set(alloc: Global, rows: &[Vec<usize>]) -> Result<Vec<bool>, AllocError>
    ensures { IfOk result (λ flags. flags.items ≡ map (λ _. true) rows.now) }
{
    let mut flags = Vec::with_capacity(alloc, rows.len())?;
    for _ in rows {
        flags.push(true)?;
    }
    Ok(flags)
}

/// A flag for each document: whether a chain of that many references begins in it.
fn flags_after(alloc: Global, rows: &[Vec<usize>], hops: usize) -> Result<Vec<bool>, AllocError>
    ensures { IfOk result (λ flags. flags.items ≡ flags_after (map (λ row. row.items) rows.now) hops) }
{
    let mut flags = all_set(alloc, rows)?;
    for _ in 0..hops {
        let next = further(alloc, rows, flags.as_slice())?;
        if next == flags {
            return Ok(flags);
        }
        flags = next;
    }
    Ok(flags)
}

impl Links {
    /// Where the references of the documents of a module lead; `long` tells of chains of so many references, and
    /// `followed` counts what may be followed in that many steps.
    ///
    /// # Errors
    ///
    /// `AllocError` if memory runs out.
    ///
    /// Its contract leaves open: what `found` keeps of references that were sought; the links, chains and counts are
    /// said by views.
    pub fn of(alloc: Global, docs: &MapDocs, hops: usize, steps: usize) -> Result<Links, AllocError>
        ensures rows { IfOk result (λ l.
            rows_lead (held docs.now) (map (λ row. row.items) l.rows.items) ≡ leads (held docs.now)) }
        ensures long { IfOk result (λ l.
            l.long.items ≡ map (λ e. has_chain (held docs.now) hops e.1) (entries (held docs.now))) }
        ensures endless { IfOk result (λ l.
            l.endless.items ≡ map (λ e. is_endless (held docs.now) e.1) (entries (held docs.now))) }
        ensures followed { IfOk result (λ l.
            l.followed.items
            ≡ map (λ e. min (followed (held docs.now) steps e.1) (2 ^ 64 - 1)) (entries (held docs.now))) }
        ensures found { IfOk result (λ l. AreFound (held docs.now) l.found) }
    {
        let all = held_in(alloc, docs)?;
        let mut found = FoundDocuments::new(alloc);
        let rows = rows(alloc, docs, all.as_slice(), &mut found)?;
        let long = flags_after(alloc, rows.as_slice(), hops)?;
        let endless = flags_after(alloc, rows.as_slice(), rows.len())?;
        let followed = counts_after(alloc, rows.as_slice(), steps)?;
        Ok(Links {
            rows,
            long,
            endless,
            followed,
            found,
        })
    }
}
