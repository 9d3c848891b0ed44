//! Places of documents.

ghost use Rattle.std.specs.Prelude.{◌≡◌, IfOk};

use ent_policy::DocKey;
use std::alloc::{AllocError, Global};

/// Where a document is held: the number of its module, and its key. Places order by module, then by key.
#[derive(PartialEq, Eq, PartialOrd, Ord, Drop)]
pub struct DocPlace {
    pub number: usize,
    pub key: DocKey,
}

impl DocPlace {
    /// An equal place.
    pub(crate) fn copy(&self, alloc: Global) -> Result<DocPlace, AllocError>
        ensures { IfOk result (λ p. p ≡ self.now) }
    {
        Ok(DocPlace {
            number: self.number,
            key: self.key.copy(alloc)?,
        })
    }
}
