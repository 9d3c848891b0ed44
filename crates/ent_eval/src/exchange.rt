//! What an edit changes of what is held.

use ent_finder::RowKey;
use ent_policy::{DocKey, Document, Reference};
use ent_request::Environment;
use ent_values::{Items, Value};

/// One thing of what is held, which is to be exchanged with what stands there. Once it is exchanged it is what stood
/// there before, so that exchanging it again takes that back.
#[derive(Drop)]
pub enum Exchange {
    /// The document under a key in the module of that number, or none.
    Document(usize, DocKey, Option<Document>),
    /// The values in a row of the module of attributes of that number.
    Row(usize, RowKey, Items<Value>),
    /// The root, or none.
    Root(Option<Reference>),
    /// The environment.
    Environment(Environment),
}
