//! Numbers, each once.

ghost use Rattle.std.specs.Prelude.{◌≡◌, ◌<◌, [], eqb, length, slice_get, OnErr, OnOk};
ghost use Rattle.std.specs.List.{list_any};
ghost use Rattle.indexmap.specs.IndexSet.{insert_key};
ghost use Rattle.ent_trace.specs.proofs_only.Marks.{HasRoom, is_stamp};

use std::alloc::{AllocError, Global};
use std::marker::Model;

/// Numbers, each once, in the order in which they were noted first since the last beginning. For each number there is a
/// mark, the stamp of the beginning behind which it was noted last: so one comparison tells whether a number is there.
#[derive(Drop)]
pub struct MarkedNumbers {
    numbers: Vec<usize>,
    marks: Vec<u64>,
    stamp: u64,
}

impl Model for MarkedNumbers {
    ghost use Rattle.std.specs.Prelude.{List, ℕ};
    ghost use Rattle.ent_trace.specs.proofs_only.Marks.{AreMarked};

    ghost Value = { List ℕ };

    ghost view = { λ m. m.numbers.items };

    ghost invariant = { λ m. AreMarked m.stamp m.marks.items m.numbers.items };
}

impl MarkedNumbers {
    /// No numbers, for which nothing is allocated.
    ///
    /// Its contract is an equation.
    pub fn new(alloc: Global) -> MarkedNumbers
        ensures { result ≡ [] }
    {
        MarkedNumbers {
            numbers: Vec::new(alloc),
            marks: Vec::new(alloc),
            stamp: 1,
        }
    }

    /// Begins anew: no number is there.
    ///
    /// Its contract is an equation.
    pub fn begin(&mut self, alloc: Global)
        ensures { self.new ≡ [] }
    {
        match self.stamp.checked_add(1) {
            None => *self = MarkedNumbers::new(alloc),
            Some(next) => {
                self.numbers.clear();
                self.stamp = next;
            }
        }
    }

    /// The numbers, in their order.
    ///
    /// Its contract is an equation.
    pub fn as_slice(&self) -> &[usize]
        ensures { result.now ≡ self.now }
    {
        self.numbers.as_slice()
    }

    /// Notes a number, if it isn't there yet.
    ///
    /// Its contract is an equation but for memory.
    pub fn note(&mut self, number: usize) -> Result<(), AllocError>
        ensures ok { OnOk result (self.new ≡ insert_key eqb self.old number) }
        ensures err { OnErr result (self.new ≡ self.old) }
    {
        if is_marked(&self.marks, self.stamp, number) {
            return Ok(());
        }
        make_room(&mut self.marks, number)?;
        self.numbers.push(number)?;
        self.marks[number] = self.stamp;
        Ok(())
    }
}

// Whether the mark of a number is a stamp.
fn is_marked(marks: &[u64], stamp: u64, number: usize) -> bool
    ensures { result ≡ is_stamp stamp (slice_get marks.now number) }
{
    match marks.get(number) {
        None => false,
        Some(mark) => *mark == stamp,
    }
}

// Makes the mark of a number, of no time, if it isn't there yet.
fn make_room(marks: &mut Vec<u64>, number: usize) -> Result<(), AllocError>
    ensures room { HasRoom marks.old.items marks.new.items }
    ensures there { OnOk result (number < length marks.new.items) }
{
    let Some(count) = number.checked_add(1) else {
        return Err(AllocError);
    };
    if count > marks.len() {
        marks.resize(count, 0)?;
    }
    Ok(())
}
