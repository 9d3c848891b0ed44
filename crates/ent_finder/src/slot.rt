//! A place for a document.

ghost use Rattle.std.specs.Prelude.{◌≡◌};
ghost use Rattle.std.specs.Option.{ForSome};
ghost use Rattle.ent_policy.specs.Key.{key_of};

use ent_policy::{DocKey, Document};

/// The place of a key's document. Once made it stays, perhaps empty.
#[derive(Drop)]
pub struct DocSlot {
    pub key: DocKey,
    pub document: Option<Document>,

    // The document has that key.
    ghost keyed: { ForSome document (λ d. key_of d ≡ key) },
}
