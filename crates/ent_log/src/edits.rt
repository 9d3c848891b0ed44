//! Edits that are logged, and forgotten.

ghost use Rattle.std.specs.Prelude.{◌≡◌, ◌+◌, ◌-◌, ◌<◌, ◌≤◌, ◌^◌, ◌∷◌, [], length, max, OnOk};
ghost use Rattle.std.specs.VecDeque.{deque_capacity, deque_len};
ghost use Rattle.ent_log.specs.Entries.{entries_since};
ghost use Rattle.ent_log.specs.Tables.{IsClosed, IsSameLog, KeepsFrom, KeepsTables, room_of};

use crate::entry::{Logged, OldAnswer};
use crate::log::Log;
use ent_values::Items;
use std::alloc::{AllocError, Global};
use std::collections::VecDeque;
use std::mem;

impl<K: Ord + Drop, A: Drop> Log<K, A> {
    /// The log of a table that wasn't edited yet, for which nothing is allocated.
    ///
    /// Its contract leaves open: nothing that a call tells: that no edit is being logged is said by `IsClosed`.
    pub fn new(alloc: Global) -> Log<K, A>
        ensures from { result.from ≡ 0 }
        ensures serial { result.serial ≡ 0 }
        ensures closed { IsClosed result }
    {
        Log {
            from: 0,
            serial: 0,
            entries: VecDeque::new(alloc),
        }
    }

    /// How many edits there were.
    ///
    /// Its contract is an equation.
    pub fn serial(&self) -> u64
        ensures { result ≡ self.now.serial }
    {
        self.serial
    }

    /// The least serial whose table is known.
    ///
    /// Its contract is an equation.
    pub fn kept_from(&self) -> u64
        ensures value { result ≡ self.now.from }
        ensures within { result ≤ self.now.serial }
    {
        self.from
    }

    /// Makes room for that many old answers. Whatever the result, the log is as before.
    ///
    /// Its contract leaves open: how much more room there is than was asked for.
    pub fn reserve(&mut self, count: usize) -> Result<(), AllocError>
        ensures room { OnOk result (count ≤ room_of self.new) }
        ensures grows { room_of self.old ≤ room_of self.new }
        ensures same { IsSameLog self.old self.new }
    {
        self.entries.reserve(count)
    }

    /// Logs an old answer of the edit that is being made. It takes no memory. The table at each serial so far stays
    /// what it was.
    ///
    /// Its contract is an equation.
    pub fn put(&mut self, old: OldAnswer<K, A>)
        requires { 0 < room_of self.old }
        ensures from { self.new.from ≡ self.old.from }
        ensures serial { self.new.serial ≡ self.old.serial }
        ensures room { room_of self.new + 1 ≡ room_of self.old }
        ensures kept { KeepsTables K.cmp (old ∷ []) self.old self.new }
    {
        let serial = self.serial;
        let Ok(()) = self.entries.push_back(Logged { serial, old }) else {
            unreachable!()
        };
    }

    /// Counts the edit whose old answers were logged. The table at the new serial is the present one.
    ///
    /// Its contract is an equation.
    pub fn close(&mut self)
        requires { self.old.serial < 2 ^ 64 - 1 }
        ensures from { self.new.from ≡ self.old.from }
        ensures serial { self.new.serial ≡ self.old.serial + 1 }
        ensures room { room_of self.new ≡ room_of self.old }
        ensures kept { KeepsTables K.cmp [] self.old self.new }
        ensures closed { IsClosed self.new }
    {
        self.serial += 1;
    }

    /// Logs an edit by the old answers of what it changed, and counts it. It takes no memory. The table at each serial
    /// so far stays what it was.
    ///
    /// Its contract leaves open: how old answers are kept, as long as the table at each serial stays what it was.
    pub fn push(&mut self, old: Items<OldAnswer<K, A>>)
        requires room { length old ≤ room_of self.old }
        requires serial { self.old.serial < 2 ^ 64 - 1 }
        ensures from { self.new.from ≡ self.old.from }
        ensures serial { self.new.serial ≡ self.old.serial + 1 }
        ensures room { room_of self.new + length old ≡ room_of self.old }
        ensures kept { KeepsTables K.cmp old self.old self.new }
        ensures closed { IsClosed self.new }
    {
        for one in old.into_vec() {
            self.put(one);
        }
        self.close();
    }

    /// Forgets the tables before a serial. It takes no memory. The table at each serial from there on stays what it
    /// was. Where the tables before the serial are forgotten already, nothing changes.
    ///
    /// Its contract is an equation.
    pub fn forget_before(&mut self, serial: u64)
        requires { serial ≤ self.old.serial }
        ensures from { self.new.from ≡ max serial self.old.from }
        ensures serial { self.new.serial ≡ self.old.serial }
        ensures entries { self.new.entries.items ≡ entries_since serial self.old.entries.items }
        ensures room { room_of self.old ≤ room_of self.new }
        ensures kept { KeepsFrom K.cmp self.old self.new }
        ensures nothing { serial ≤ self.old.from → IsSameLog self.old self.new }
        ensures closed { IsClosed self.old → IsClosed self.new }
    {
        while let Some(first) = self.entries.front() {
            if first.serial >= serial {
                break;
            }
            self.entries.pop_front();
        }
        begin_again(&mut self.entries);
        self.from = serial.max(self.from);
    }
}

// Where none is left, the next one stands at the start of the block again: a ring that goes on comes to touch all for
// which it has room.
fn begin_again<T: Drop>(entries: &mut VecDeque<T>)
    ensures items { entries.new.items ≡ entries.old.items }
    ensures len { deque_len entries.new ≡ deque_len entries.old }
    ensures capacity { deque_capacity entries.new ≡ deque_capacity entries.old }
{
    if !entries.is_empty() {
        return;
    }
    let alloc = *entries.allocator();
    let held = mem::replace(entries, VecDeque::new(alloc));
    *entries = VecDeque::from_vec(held.into_vec());
}
