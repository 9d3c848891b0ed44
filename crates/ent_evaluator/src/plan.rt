//! The tests of what the root leads to.

ghost use Rattle.std.specs.Prelude.{◌≡◌, IfOk, IfSome, IsTrue, Some, option_copied};
ghost use Rattle.ent_evaluator.specs.Tests.{IsPlanOf, Stands};
ghost use Rattle.memo_plan.specs.Plan.{Fits, ItemFits};

use ent_policy::{Document, Reference, Tree};
use ent_request::{LookUps, same_reference};
use ent_values::{Date, DateTime, Items, Time};
use memo_plan::{Entry, Item, plan_of};
use std::alloc::{AllocError, Global};

/// The tests of what a root leads to, with what they rest on besides values: the root, what is known of the time, and
/// equal documents, which stand in the entries.
#[derive(Drop)]
pub(crate) struct Plan {
    pub(crate) root: Reference,
    pub(crate) date: Option<Date>,
    pub(crate) time: Option<Time>,
    pub(crate) date_time: Option<DateTime>,
    pub(crate) entries: Items<Entry>,
}

impl Plan {
    // That of what is held, if there is one.
    pub(crate) fn of<L: LookUps>(alloc: Global, held: &L) -> Result<Option<Plan>, AllocError>
        ensures { IfOk result (λ o. IfSome o (IsPlanOf (L.looks held.now))) }
    {
        let Some(root) = held.root() else {
            return Ok(None);
        };
        let root = root.copy(alloc)?;
        match plan_of(alloc, held)? {
            None => Ok(None),
            Some(entries) => Ok(Some(Plan {
                root,
                date: held.date(),
                time: held.time(),
                date_time: held.date_time(),
                entries,
            })),
        }
    }

    // Whether it rests on what is held.
    pub(crate) fn stands<L: LookUps>(&self, held: &L) -> bool
        ensures { IsTrue result → Stands (L.looks held.now) self.now }
    {
        is_root(held.root(), &self.root)
            && same_dates(held.date(), self.date)
            && same_times(held.time(), self.time)
            && same_moments(held.date_time(), self.date_time)
            && fit(self.entries.as_slice(), held)
    }
}

// Whether a root is this one.
fn is_root(root: &Option<Reference>, this: &Reference) -> bool
    ensures { IsTrue result → root.now ≡ Some this.now }
{
    match root {
        None => false,
        Some(root) => same_reference(root, this),
    }
}

// Whether two dates are equal, or none is known.
fn same_dates(first: Option<Date>, second: Option<Date>) -> bool
    ensures { IsTrue result → first ≡ second }
{
    first == second
}

// Whether two times are.
fn same_times(first: Option<Time>, second: Option<Time>) -> bool
    ensures { IsTrue result → first ≡ second }
{
    first == second
}

// Whether two moments are.
fn same_moments(first: Option<DateTime>, second: Option<DateTime>) -> bool
    ensures { IsTrue result → first ≡ second }
{
    first == second
}

// Whether each reference still names an equal document.
fn fit<L: LookUps>(entries: &[Entry], held: &L) -> bool
    ensures { IsTrue result → Fits entries.now (L.looks held.now) }
{
    for entry in entries {
        if !fits(&entry.item, held) {
            return false;
        }
    }
    true
}

// Whether one does.
fn fits<L: LookUps>(item: &Item, held: &L) -> bool
    ensures { IsTrue result → ItemFits (L.looks held.now) item.now }
{
    match item {
        Item::Named(named) => {
            let named = named.get();
            is_equal(held.document(&named.reference), &named.copy)
        }
        Item::Given => true,
        Item::Test(_) => true,
    }
}

// Whether a document is equal to a copy, or there is none of both.
fn is_equal(document: Option<&Document>, copy: &Option<Tree>) -> bool
    ensures { IsTrue result → option_copied document.entry ≡ copy.now }
{
    match (document, copy) {
        (None, None) => true,
        (Some(document), Some(copy)) => same_tree(document.tree(), copy),
        _ => false,
    }
}

// Whether two trees are equal.
fn same_tree(first: &Tree, second: &Tree) -> bool
    ensures { IsTrue result → first.now ≡ second.now }
{
    *first == *second
}
