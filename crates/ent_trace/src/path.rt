//! Where a policy or a policy set stands.

ghost use Rattle.std.specs.Prelude.{◌≡◌, ◌++◌, IsTrue, OnOk};
ghost use Rattle.ent_trace.specs.proofs_only.Path.{keys_of};

use ent_policy::{DocKey, Kind, Version};
use ent_values::{Items, Text};
use std::alloc::{AllocError, Global};

/// So many bytes of an id's end count in a path's number.
const MIXED_BYTES: usize = 16;

/// What a number is multiplied with for each of them.
const MIXING_FACTOR: usize = 0x100_0000_01b3;

/// The policies from the root on to an element: each level stands on the stack for as long as what is below it is
/// evaluated.
#[derive(Clone, Copy)]
pub enum Path<'a> {
    Root,
    Below {
        above: &'a Path<'a>,
        kind: Kind,
        id: &'a Text,
        version: &'a Version,
    },
}

impl Path<'_> {
    // How many keys there are.
    pub(crate) fn depth(&self) -> usize {
        match self {
            Path::Root => 0,
            Path::Below { above, .. } => above.depth().saturating_add(1),
        }
    }

    // Puts the keys last.
    pub(crate) fn add_keys(&self, alloc: Global, keys: &mut Items<DocKey>) -> Result<(), AllocError>
        ensures { OnOk result (keys.new ≡ keys.old ++ keys_of self.now) }
    {
        match self {
            Path::Root => Ok(()),
            Path::Below {
                above,
                kind,
                id,
                version,
            } => {
                above.add_keys(alloc, keys)?;
                keys.push(DocKey {
                    kind: *kind,
                    id: id.copy(alloc)?,
                    version: version.copy(),
                })
            }
        }
    }

    // Whether these are the keys.
    pub(crate) fn has_keys(&self, keys: &[DocKey]) -> bool
        ensures { IsTrue result → keys.now ≡ keys_of self.now }
    {
        match self {
            Path::Root => keys.is_empty(),
            Path::Below {
                above,
                kind,
                id,
                version,
            } => match keys.split_last() {
                None => false,
                Some((last, before)) => {
                    is_key(last, *kind, id, version) && above.has_keys(before)
                }
            },
        }
    }

    // A number made of the ids.
    pub(crate) fn number(&self) -> usize {
        match self {
            Path::Root => 0,
            Path::Below { above, id, .. } => mixed(above.number(), id.as_str().as_bytes()),
        }
    }
}

// Whether the key has this kind, id and version.
fn is_key(key: &DocKey, kind: Kind, id: &Text, version: &Version) -> bool
    ensures { IsTrue result → key.now ≡ record { kind = kind; id = id.now; version = version.now } }
{
    key.id == *id && key.version == *version && key.kind == kind
}

// A number made of another and of the last bytes of a text.
fn mixed(number: usize, bytes: &[u8]) -> usize {
    let mut mixed = number;
    for byte in bytes.iter().rev().take(MIXED_BYTES) {
        mixed = (mixed ^ usize::from(*byte)).wrapping_mul(MIXING_FACTOR);
    }
    mixed
}
