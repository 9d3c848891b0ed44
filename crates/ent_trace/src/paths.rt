//! The lists of keys that the entries of answers share.

ghost use Rattle.std.specs.Prelude.{◌≡◌, [], IfOk};
ghost use Rattle.ent_trace.specs.proofs_only.Path.{keys_of};

use crate::path::Path;
use ent_policy::DocKey;
use ent_values::{Items, Shared};
use std::alloc::{AllocError, Global};
use std::marker::Model;

/// In so many places a list is kept.
const PLACES: usize = 1024;

// The lists of keys that were made last, so that equal paths of many answers share one. What it gives for a path never
// depends on what is kept, so that it has no meaning of its own.
#[derive(Drop)]
pub(crate) struct Paths {
    places: Vec<Option<Shared<Items<DocKey>>>>,
}

impl Model for Paths {
    ghost Value = { Unit {0} };

    ghost view = { λ _. tt };
}

impl Paths {
    // No lists, for which nothing is allocated.
    pub(crate) fn new(alloc: Global) -> Paths {
        Paths {
            places: Vec::new(alloc),
        }
    }

    // The keys of a path: the list that is kept in its place, if it is that, and else a new one, which is kept there
    // from now on.
    pub(crate) fn keys(
        &mut self,
        alloc: Global,
        path: &Path<'_>,
    ) -> Result<Shared<Items<DocKey>>, AllocError>
        ensures { IfOk result (λ keys. keys ≡ keys_of path.now) }
    {
        if self.places.is_empty() {
            self.places = places(alloc)?;
        }
        match self.places.get_mut(path.number() % PLACES) {
            None => made(alloc, path),
            Some(place) => kept(alloc, place, path),
        }
    }
}

// The places, all of them empty.
fn places(alloc: Global) -> Result<Vec<Option<Shared<Items<DocKey>>>>, AllocError> {
    let mut places = Vec::with_capacity(alloc, PLACES)?;
    for _ in 0..PLACES {
        places.push(None)?;
    }
    Ok(places)
}

// The keys of a path, of which the list is in that place from now on.
fn kept(
    alloc: Global,
    place: &mut Option<Shared<Items<DocKey>>>,
    path: &Path<'_>,
) -> Result<Shared<Items<DocKey>>, AllocError>
    ensures { IfOk result (λ keys. keys ≡ keys_of path.now) }
{
    if let Some(keys) = place {
        if path.has_keys(keys.get().as_slice()) {
            return keys.copy();
        }
    }
    let keys = made(alloc, path)?;
    *place = Some(keys.copy()?);
    Ok(keys)
}

// A new list of the keys of a path.
fn made(alloc: Global, path: &Path<'_>) -> Result<Shared<Items<DocKey>>, AllocError>
    ensures { IfOk result (λ keys. keys ≡ keys_of path.now) }
{
    let mut keys = Items::with_capacity(alloc, path.depth())?;
    path.add_keys(alloc, &mut keys)?;
    Shared::new(alloc, keys)
}
