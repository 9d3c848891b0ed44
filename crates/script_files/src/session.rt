//! Sessions and their steps.

use ent_values::Items;

/// How a reply is compared with the one that is expected.
#[derive(Clone, Copy, Debug, PartialEq, Eq)]
pub enum ReplyComparison {
    /// Byte by byte.
    Bytes,
    /// As JSON: it has the same data.
    Data,
    /// As JSON: what is expected is a part of it.
    Part,
}

/// What is expected of a reply.
#[derive(Debug, Drop)]
pub struct Expected {
    /// How the two are compared.
    pub comparison: ReplyComparison,
    /// What the reply is compared with.
    pub text: Items<u8>,
}

/// A line that is sent, and what is expected of its reply.
#[derive(Debug, Drop)]
pub struct SentLine {
    /// The number of the line of the file that it was read from, counted from 1.
    pub number: u64,
    /// What is sent, without a newline.
    pub line: Items<u8>,
    /// What is expected of the reply, if the file says it.
    pub expected: Option<Expected>,
}

/// What is sent to a service of its own, step by step.
#[derive(Debug, Drop)]
pub struct Session {
    /// What its heading calls it.
    pub name: Items<u8>,
    /// The number of the line of its heading, counted from 1.
    pub number: u64,
    /// How many modules of each sort the service has, from 1 to 4.
    pub modules: usize,
    /// Its steps, in order.
    pub steps: Items<SentLine>,
}
