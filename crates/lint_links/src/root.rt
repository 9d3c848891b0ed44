//! The documents to which the root doesn't lead.

ghost use Rattle.std.specs.Prelude.{◌≡◌, ◌∷◌, ◌++◌, [], IfOk, OnOk, map, not};
ghost use Rattle.std.specs.FinMap.{entries};
ghost use Rattle.std.specs.List.{filter};
ghost use Rattle.ent_finder.specs.Slots.{held};
ghost use Rattle.lint_reach.specs.Reached.{has_place, is_reached};
ghost use Rattle.lint_reach.specs.declared.place.DocPlace.{DocPlace};
ghost use Rattle.lint_links.specs.Root.{unreached};
ghost use Rattle.lint_links.specs.proofs_only.Root.{place_of};

use crate::held::held_in;
use ent_finder::{MapDocs, Policies, PolicyFinder, PolicyFinderModule};
use ent_policy::{DocKey, Reference};
use ent_values::Items;
use lint_reach::{DocPlace, Reached, reached_places};
use std::alloc::{AllocError, Global};

/// The keys of the documents of a module, in their order.
fn keys_in(alloc: Global, docs: &MapDocs) -> Result<Vec<DocKey>, AllocError>
    ensures { IfOk result (λ keys. keys.items ≡ map (λ e. e.0) (entries (held docs.now))) }
{
    let held = held_in(alloc, docs)?;
    let all = held.as_slice();
    let mut keys = Vec::new(alloc);
    for one in all {
        keys.push(one.key.copy(alloc)?)?;
    }
    Ok(keys)
}

/// The finder over one module.
fn finder_over(
    alloc: Global,
    store: Box<dyn PolicyFinderModule>,
) -> Result<PolicyFinder, AllocError>
    ensures { IfOk result (λ f. ⟦<PolicyFinder as Policies>⟧.slots f ≡ slots store ∷ []) }
{
    let mut modules = Vec::new(alloc);
    modules.push(store)?;
    Ok(PolicyFinder::new(modules))
}

/// Puts a key last whose place, in the first module, isn't among these.
fn put_outside(
    alloc: Global,
    reached: &Reached,
    key: &DocKey,
    left: &mut Items<DocKey>,
) -> Result<(), AllocError>
    ensures { OnOk result (left.new
        ≡ left.old ++ filter (λ k. not (has_place (place_of k) reached.now)) (key.now ∷ [])) }
{
    let place = DocPlace {
        number: 0,
        key: key.copy(alloc)?,
    };
    if !reached.has(&place) {
        left.push(place.key)?;
    }
    Ok(())
}

/// Those of the keys whose places, in the first module, aren't among these.
fn keys_outside(
    alloc: Global,
    reached: &Reached,
    keys: &[DocKey],
) -> Result<Items<DocKey>, AllocError>
    ensures { IfOk result (λ left. left ≡ filter (λ k. not (has_place (place_of k) reached.now)) keys.now) }
{
    let mut left = Items::new(alloc);
    for key in keys {
        put_outside(alloc, reached, key, &mut left)?;
    }
    Ok(left)
}

/// The places of these documents, in one module, to which the root leads.
fn reached_in(alloc: Global, docs: MapDocs, root: &Option<Reference>) -> Result<Reached, AllocError>
    ensures { IfOk result (λ r. (place : DocPlace) →
        has_place place r ≡ is_reached (held docs ∷ []) root.now place) }
{
    let finder = finder_over(alloc, Box::new(alloc, docs)?)?;
    reached_places(alloc, &finder, root)
}

/// The keys of the documents of a module to which the root doesn't lead, in their order.
///
/// # Errors
///
/// `AllocError` if memory runs out.
///
/// Its contract is an equation but for memory.
pub(crate) fn unreached(
    alloc: Global,
    docs: MapDocs,
    root: &Option<Reference>,
) -> Result<Items<DocKey>, AllocError>
    ensures { IfOk result (λ keys. keys ≡ unreached (held docs) root.now) }
{
    let keys = keys_in(alloc, &docs)?;
    let reached = reached_in(alloc, docs, root)?;
    keys_outside(alloc, &reached, keys.as_slice())
}
