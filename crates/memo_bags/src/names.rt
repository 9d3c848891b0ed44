//! NameRows of listed requests, with what questions found for them.

ghost use Rattle.std.specs.Prelude.{◌≡◌, ◌↔◌, ◌<◌, ℕ, [], IfNone, IfSome, IsTrue, OnOk, Some, length, slice_get};
ghost use Rattle.std.specs.Bool.{OnFalse};
ghost use Rattle.std.specs.BTreeMap.{get};
ghost use Rattle.std.specs.Cmp.Lexicographic.{slice_cmp};
ghost use Rattle.std.specs.Ordering.{nat_cmp};
ghost use Rattle.std.proofs.Props.{props};
ghost use Rattle.memo_bags.specs.declared.names.NameRow.{NameRow};

use ent_values::Text;
use std::alloc::{AllocError, Global};
use std::collections::BTreeMap;

/// A name, and for each question by its number the number of the bag that it found for the name, if it is known.
#[derive(Drop)]
pub struct NameRow {
    pub name: Text,
    pub found: Vec<Option<u32>>,
}

impl NameRow {
    ghost use Rattle.memo_bags.specs.proofs_only.Ready.{LearnsAtMost};

    // Notes the number of the bag that a question found.
    fn learn(&mut self, question: u32, bag: u32) -> Result<(), AllocError>
        ensures { LearnsAtMost self.old self.new question bag }
    {
        let place = question as usize;
        if place >= self.found.len() {
            self.found.resize(place + 1, None)?;
        }
        self.found[place] = Some(bag);
        Ok(())
    }

    // Forgets all that was found for the name.
    fn forget(&mut self)
        ensures name { self.new.name ≡ self.old.name }
        ensures nothing { self.new.found.items ≡ [] }
    {
        self.found.clear();
    }
}

/// The names at one place, in the order in which they were met. NameRows mostly come in the same order again, so that
/// the row of one is likely the latest, or the one behind it; else a map tells it.
#[derive(Drop)]
pub struct NameRows {
    pub rows: Vec<NameRow>,
    pub places: BTreeMap<Text, usize>,
    pub latest: usize,
    ghost placed: { (i : ℕ) (row : NameRow) → slice_get rows.items i ≡ Some row
        → get (slice_cmp nat_cmp) places row.name ≡ Some i } by { Prim.hlevel props },
}

impl NameRows {
    ghost use Rattle.memo_bags.specs.proofs_only.Ready.{AddsRows, ForgetsName, HasNone, IsAt, KnowsLatest};
    ghost use Rattle.memo_bags.specs.proofs_only.Ready.{LearnsLatest, StandsAt};

    // No names, for which nothing is allocated.
    pub(crate) fn new(alloc: Global) -> NameRows
        ensures { result.rows.items ≡ [] }
    {
        NameRows {
            rows: Vec::new(alloc),
            places: BTreeMap::new(alloc),
            latest: 0,
        }
    }

    // Forgets what was found for a name.
    pub(crate) fn forget(&mut self, name: &Text)
        ensures { ForgetsName name.now self.old.rows.items self.new.rows.items }
    {
        if let Some(place) = self.places.get(name) {
            let place = *place;
            if place < self.rows.len() {
                self.rows[place].forget();
            }
        }
    }

    // Turns to the row of a name, which is made if it isn't there.
    pub(crate) fn turn_to(&mut self, alloc: Global, name: &Text) -> Result<(), AllocError>
        ensures at { OnOk result (IsAt self.new name.now) }
        ensures rows { AddsRows self.old.rows.items self.new.rows.items }
    {
        if self.is_of(self.latest, name) {
            return Ok(());
        }
        match self.likely(name) {
            Some(place) => {
                self.latest = place;
                Ok(())
            }
            None => self.add(alloc, name),
        }
    }

    // Whether the row at a place is that of a name.
    fn is_of(&self, place: usize, name: &Text) -> bool
        ensures is { IsTrue result → StandsAt self.now.rows.items place name.now }
        ensures other { OnFalse result (StandsAt self.now.rows.items place name.now → ⊥) }
    {
        match self.rows.get(place) {
            Some(row) => same_name(&row.name, name),
            None => false,
        }
    }

    // The place of the row of a name, which isn't the latest.
    fn likely(&self, name: &Text) -> Option<usize>
        ensures some { IfSome result (λ place. StandsAt self.now.rows.items place name.now) }
        ensures none { IfNone result (HasNone self.now.rows.items name.now) }
    {
        let behind = self.latest.saturating_add(1);
        if self.is_of(behind, name) {
            return Some(behind);
        }
        let place = *self.places.get(name)?;
        if self.is_of(place, name) {
            Some(place)
        } else {
            None
        }
    }

    // Adds a row for a name that has none.
    fn add(&mut self, alloc: Global, name: &Text) -> Result<(), AllocError>
        requires { HasNone self.old.rows.items name.now }
        ensures at { OnOk result (IsAt self.new name.now) }
        ensures rows { AddsRows self.old.rows.items self.new.rows.items }
    {
        let place = self.rows.len();
        self.places.insert(name.copy(alloc)?, place)?;
        self.rows.push(NameRow {
            name: name.copy(alloc)?,
            found: Vec::new(alloc),
        })?;
        self.latest = place;
        Ok(())
    }

    // The number of the bag that a question found for the latest name, if it is known.
    pub(crate) fn known(&self, question: u32) -> Option<u32>
        ensures { IfSome result (λ bag. KnowsLatest self.now question bag) }
    {
        let row = self.rows.get(self.latest)?;
        *row.found.get(question as usize)?
    }

    // Notes it.
    pub(crate) fn learn(&mut self, question: u32, bag: u32) -> Result<(), AllocError>
        requires { self.old.latest < length self.old.rows.items }
        ensures { LearnsLatest self.old self.new question bag }
    {
        self.rows[self.latest].learn(question, bag)
    }
}

// Whether two names are equal.
fn same_name(first: &Text, second: &Text) -> bool
    ensures { IsTrue result ↔ first.now ≡ second.now }
{
    first == second
}
