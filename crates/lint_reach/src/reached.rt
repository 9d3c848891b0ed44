//! The documents to which the root leads.

ghost use Rattle.std.specs.Prelude.{◌≡◌, IfOk, map};
ghost use Rattle.ent_finder.specs.Slots.{held};
ghost use Rattle.lint_reach.specs.Reached.{has_place, is_reached, places_found, roots};
ghost use Rattle.lint_reach.specs.declared.place.DocPlace.{DocPlace};
ghost use Rattle.lint_reach.specs.proofs_only.Search.{IsSound};

use crate::place::DocPlace;
use crate::search::Search;
use crate::walk::look_at_all;
use ent_finder::Policies;
use ent_policy::Reference;
use std::alloc::{AllocError, Global};
use std::collections::BTreeSet;
use std::marker::Model;

/// How many references lead from the root's document to another at most.
const MOST_HOPS: usize = 6;

/// The places to which the root leads, each once.
#[derive(Drop)]
pub struct Reached {
    places: BTreeSet<DocPlace>,
}

impl Model for Reached {
    ghost use Rattle.std.specs.Prelude.{List};
    ghost use Rattle.lint_reach.specs.declared.place.DocPlace.{DocPlace};

    ghost Value = { List DocPlace };

    ghost view = { λ r. r.places.keys };
}

impl Reached {
    /// Whether a place is among them, in time logarithmic in their number. It takes no memory.
    ///
    /// Its contract is an equation.
    pub fn has(&self, place: &DocPlace) -> bool
        ensures { result ≡ has_place place.now self.now }
    {
        self.places.contains(place)
    }
}

/// Looks for the document of the root, if there is a root.
fn begin<P: Policies>(
    alloc: Global,
    policies: &P,
    root: &Option<Reference>,
) -> Result<Search, AllocError>
    ensures sound { IfOk result (IsSound (map held (P.slots policies.now))) }
    ensures found { IfOk result (λ s. (place : DocPlace) → has_place place s.places.keys
        ≡ has_place place (places_found (map held (P.slots policies.now)) (roots root.now))) }
{
    let mut search = Search::new(alloc);
    if let Some(root) = root {
        search.look_for(alloc, policies, root)?;
    }
    Ok(search)
}

/// The places of the documents to which the root leads, over at most six references in documents: it counts as none of
/// them, as in an evaluation. Over each number of references each document is walked once at most, and each reference
/// is looked for once.
///
/// # Errors
///
/// `AllocError` if memory runs out.
///
/// Its contract is an equation but for memory.
pub fn reached_places<P: Policies>(
    alloc: Global,
    policies: &P,
    root: &Option<Reference>,
) -> Result<Reached, AllocError>
    ensures { IfOk result (λ r. (place : DocPlace)
        → has_place place r ≡ is_reached (map held (P.slots policies.now)) root.now place) }
{
    let mut search = begin(alloc, policies, root)?;
    for _ in 0..MOST_HOPS {
        let places = search.found(alloc)?;
        look_at_all(alloc, policies, places.as_slice(), &mut search)?;
    }
    Ok(Reached {
        places: search.places,
    })
}
