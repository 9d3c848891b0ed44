//! Bags by number.

ghost use Rattle.std.specs.Prelude.{◌≡◌, [], IfOk, OnErr, Some, fold, slice_get};
ghost use Rattle.std.specs.Hash.{on_Alike, same_Alike};
ghost use Rattle.std.specs.List.{IsDistinct, flat_map};
ghost use Rattle.ent_values.specs.Same.{same_bag};
ghost use Rattle.ent_values.proofs.Values.{same_bag-Decides};
ghost use Rattle.memo_bags.specs.proofs_only.Ready.{Begins, bag_writes, date_writes, time_writes, value_writes};

use ent_values::{Bag, Date, Time, Value};
use indexmap::IndexSet;
use std::alloc::{AllocError, Global};
use std::hash::{Hash, Hasher};
use std::marker::Model;

/// A bag that has a number.
#[derive(PartialEq, Eq, Drop)]
struct NumberedBag {
    bag: Bag,
}

impl Hash for NumberedBag {
    ghost hash_input = { λ f. bag_writes f.bag };

    ghost respects_eq = { (on_Alike (λ f. f.bag) (same_Alike bag_writes same_bag-Decides)).fed };

    fn hash<H: Hasher>(&self, state: &mut H) {
        hash_values(self.bag.values(), state);
    }
}

/// The bags that have a number, each once, in the order of their numbers.
#[derive(Drop)]
pub struct Bags {
    bags: IndexSet<NumberedBag>,
    values: usize,
}

impl Model for Bags {
    ghost use Rattle.std.specs.Prelude.{List, map};
    ghost use Rattle.ent_values.specs.Bags.{Contents};

    ghost Value = { List Contents };

    ghost view = { λ b. map (λ f. f.bag) b.bags.keys };
}

impl Bags {
    // No bags, for which nothing is allocated.
    pub(crate) fn new(alloc: Global) -> Bags
        ensures { result ≡ [] }
    {
        Bags {
            bags: IndexSet::new(alloc),
            values: 0,
        }
    }

    /// How many values they have in all.
    ///
    /// Its contract leaves open: all of it: it tells how much is kept, by which a caller forgets.
    pub fn values(&self) -> usize {
        self.values
    }

    // The number of a bag, which gets one if it has none. Beyond 2^32 the next one is refused, as for want of memory.
    pub(crate) fn number_of(&mut self, bag: Bag) -> Result<u32, AllocError>
        requires { IsDistinct same_bag self.old }
        ensures number { IfOk result (λ n. slice_get self.new n ≡ Some bag) }
        ensures begins { Begins self.new self.old }
        ensures err { OnErr result (self.new ≡ self.old) }
        ensures distinct { IsDistinct same_bag self.new }
    {
        if self.bags.len() > MOST_BEFORE {
            return Err(AllocError);
        }
        let more = bag.values().len();
        let (number, is_new) = self.bags.insert_full(NumberedBag { bag })?;
        self.values = grown(self.values, more, is_new);
        Ok(number as u32)
    }
}

// A count of values, with those of a bag that is new.
fn grown(values: usize, more: usize, is_new: bool) -> usize {
    if is_new {
        values.saturating_add(more)
    } else {
        values
    }
}

/// So many bags have a number at most before one more gets one.
const MOST_BEFORE: usize = 4_294_967_295;

// Feeds a hasher with values.
fn hash_values<H: Hasher>(values: &[Value], state: &mut H)
    ensures { state.new ≡ fold H.write state.old (flat_map value_writes values.now) }
{
    for value in values {
        hash_value(value, state);
    }
}

// Feeds a hasher with a value.
fn hash_value<H: Hasher>(value: &Value, state: &mut H)
    ensures { state.new ≡ fold H.write state.old (value_writes value.now) }
{
    match value {
        Value::Text(text) => text.as_str().hash(state),
        Value::Boolean(boolean) => boolean.hash(state),
        Value::Integer(integer) => integer.hash(state),
        Value::Date(date) => hash_date(*date, state),
        Value::AnyUri(uri) => uri.as_str().hash(state),
        Value::YearMonth(duration) => duration.months().hash(state),
        Value::Time(time) => hash_time(*time, state),
        Value::DateTime(moment) => {
            hash_date(moment.date(), state);
            hash_time(moment.time(), state);
        }
    }
}

// Feeds a hasher with a date.
fn hash_date<H: Hasher>(date: Date, state: &mut H)
    ensures { state.new ≡ fold H.write state.old (date_writes date) }
{
    date.year().hash(state);
    date.month().hash(state);
    date.day().hash(state);
}

// Feeds a hasher with a time.
fn hash_time<H: Hasher>(time: Time, state: &mut H)
    ensures { state.new ≡ fold H.write state.old (time_writes time) }
{
    time.hour().hash(state);
    time.minute().hash(state);
    time.second().hash(state);
}
