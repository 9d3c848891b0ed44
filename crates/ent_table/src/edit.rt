//! Edits of what is reviewed, and what they are answered.

use ent_finder::RowKey;
use ent_policy::{DocKey, Document, Reference};
use ent_values::{Date, DateTime, Items, Text, Value};
use thiserror::Error;

/// One of the three lists whose names together make the requests of the table.
#[derive(Clone, Copy, PartialEq, Eq)]
pub enum List {
    People,
    Actions,
    Resources,
}

/// A change of what is reviewed.
#[derive(Drop)]
pub enum Edit {
    /// Stores a document in the module of that number, where no document has its key yet.
    AddPolicy(usize, Document),
    /// Stores a document in the module of that number in place of the one with its key.
    ReplacePolicy(usize, Document),
    /// Takes the document with that key out of the module of that number.
    WithdrawPolicy(usize, DocKey),
    /// Gives the row of that key in the module of attributes of that number these values, or takes it away where there
    /// are none.
    SetAttribute(usize, RowKey, Items<Value>),
    /// Puts a name last in a list.
    AddName(List, Text),
    /// Takes a name out of a list. Those behind it move up.
    DropName(List, Text),
    /// Sets the policy from which every request is evaluated, or none.
    SetRoot(Option<Reference>),
    /// Makes the environment have that day and no time, or nothing.
    SetDay(Option<Date>),
    /// Makes the environment have that date and time, or nothing.
    SetMoment(Option<DateTime>),
}

/// An edit was made.
#[derive(Clone, Copy, PartialEq, Eq)]
pub struct Accepted {
    /// How many edits were accepted so far.
    pub serial: u64,
    /// How many cells have another answer than before the edit. A cell that wasn't listed had none.
    pub changes: u64,
}

/// Why an edit is refused. Of several reasons the first in this order is given, but want of memory may come in place of
/// any.
#[derive(Clone, Copy, Debug, PartialEq, Eq, Error)]
pub enum EditFault {
    #[error("not there")]
    NotThere,
    #[error("already there")]
    AlreadyThere,
    #[error("a limit is reached")]
    Limit,
    #[error("the attribute is reserved")]
    Reserved,
    #[error("the value can't be used")]
    BadValue,
    #[error("no such module")]
    UnknownModule,
    #[error("out of memory")]
    Memory,
}
