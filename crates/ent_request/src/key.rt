//! Keys of look-ups.

ghost use Rattle.std.specs.Prelude.{◌≡◌, IfOk, OnErr, true};
ghost use Rattle.ent_request.specs.KeyOrder.{has_texts};

use ent_finder::AttrKey;
use ent_policy::Reference;
use std::alloc::{AllocError, Global};

/// What a look-up asks for. Keys order by kind of look-up, and references and keys of attributes as they do.
#[derive(PartialEq, Eq, PartialOrd, Ord, Drop)]
pub enum ReadKey {
    /// Which policy or policy set is the root.
    Root,
    /// Which document a reference names.
    Ref(Reference),
    /// Which values of an entity a key names.
    Attr(AttrKey),
    /// Which date it is.
    CurrentDate,
    /// Which time of day it is.
    CurrentTime,
    /// Which date and time it is.
    CurrentDateTime,
}

impl ReadKey {
    /// An equal key. Only that of a reference or of a key of attributes takes memory.
    ///
    /// Its contract is an equation but for memory.
    pub fn copy(&self, alloc: Global) -> Result<ReadKey, AllocError>
        ensures value { IfOk result (λ k. k ≡ self.now) }
        ensures memory { OnErr result (has_texts self.now ≡ true) }
    {
        match self {
            ReadKey::Root => Ok(ReadKey::Root),
            ReadKey::Ref(reference) => Ok(ReadKey::Ref(reference.copy(alloc)?)),
            ReadKey::Attr(key) => Ok(ReadKey::Attr(key.copy(alloc)?)),
            ReadKey::CurrentDate => Ok(ReadKey::CurrentDate),
            ReadKey::CurrentTime => Ok(ReadKey::CurrentTime),
            ReadKey::CurrentDateTime => Ok(ReadKey::CurrentDateTime),
        }
    }
}
