//! The documents that references find, each reference looked for once.

ghost use Rattle.std.specs.Prelude.{◌≡◌, ◌∷◌, ◌||◌, [], IfOk, OnOk, map};
ghost use Rattle.std.specs.Option.{option_to_list};
ghost use Rattle.ent_finder.specs.Slots.{held};
ghost use Rattle.lint_reach.specs.Reached.{has_place, place_found};
ghost use Rattle.lint_reach.specs.declared.place.DocPlace.{DocPlace};
ghost use Rattle.lint_reach.specs.proofs_only.Search.{IsSound, Leads};

use crate::place::DocPlace;
use ent_finder::Policies;
use ent_policy::Reference;
use std::alloc::{AllocError, Global};
use std::collections::BTreeSet;

/// The references that were looked for so far, and the places of the documents that they found.
#[derive(Drop)]
pub(crate) struct Search {
    pub(crate) references: BTreeSet<Reference>,
    pub(crate) places: BTreeSet<DocPlace>,
}

impl Search {
    /// Nothing was looked for.
    pub(crate) fn new(alloc: Global) -> Search
        ensures references { result.references.keys ≡ [] }
        ensures places { result.places.keys ≡ [] }
    {
        Search {
            references: BTreeSet::new(alloc),
            places: BTreeSet::new(alloc),
        }
    }

    /// Looks for the document of a reference, unless that was done.
    pub(crate) fn look_for<P: Policies>(
        &mut self,
        alloc: Global,
        policies: &P,
        reference: &Reference,
    ) -> Result<(), AllocError>
        requires { IsSound (map held (P.slots policies.now)) self.old }
        ensures { OnOk result (Leads (map held (P.slots policies.now)) (reference.now ∷ []) self.old self.new) }
    {
        if self.references.contains(reference) {
            return Ok(());
        }
        let found = find(alloc, policies, reference)?;
        put(&mut self.places, found)?;
        self.references.insert(reference.copy(alloc)?)?;
        Ok(())
    }

    /// The places of the documents that were found.
    pub(crate) fn found(&self, alloc: Global) -> Result<Vec<DocPlace>, AllocError>
        ensures { IfOk result (λ found. found.items ≡ self.now.places.keys) }
    {
        let mut found = Vec::new(alloc);
        for place in &self.places {
            found.push(place.copy(alloc)?)?;
        }
        Ok(found)
    }
}

/// The place of the document that a reference finds, if it finds one.
fn find<P: Policies>(
    alloc: Global,
    policies: &P,
    reference: &Reference,
) -> Result<Option<DocPlace>, AllocError>
    ensures { IfOk result (λ found. found ≡ place_found (map held (P.slots policies.now)) reference.now) }
{
    match policies.resolve(reference) {
        None => Ok(None),
        Some((number, document)) => {
            let key = document.key(alloc)?;
            Ok(Some(DocPlace { number, key }))
        }
    }
}

/// Puts a place among others, if there is one.
fn put(places: &mut BTreeSet<DocPlace>, found: Option<DocPlace>) -> Result<(), AllocError>
    ensures { OnOk result ((place : DocPlace) → has_place place places.new.keys
        ≡ (has_place place places.old.keys || has_place place (option_to_list found))) }
{
    match found {
        None => Ok(()),
        Some(place) => {
            places.insert(place)?;
            Ok(())
        }
    }
}
