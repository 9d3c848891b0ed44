//! The references of documents.

ghost use Rattle.std.specs.Prelude.{◌≡◌, OnOk, map};
ghost use Rattle.std.specs.List.{flat_map};
ghost use Rattle.ent_finder.specs.Slots.{held};
ghost use Rattle.lint_reach.specs.Reached.{references_at, references_in};
ghost use Rattle.lint_reach.specs.proofs_only.Search.{IsSound, Leads};

use crate::place::DocPlace;
use crate::search::Search;
use ent_finder::Policies;
use ent_policy::{Child, Tree};
use std::alloc::{AllocError, Global};

/// Looks for the documents of the references in a child.
#[cycle(child)]
fn look_in<P: Policies>(
    alloc: Global,
    policies: &P,
    child: &Child,
    search: &mut Search,
) -> Result<(), AllocError>
    requires { IsSound (map held (P.slots policies.now)) search.old }
    ensures { OnOk result (Leads (map held (P.slots policies.now)) (references_in child.now)
        search.old search.new) }
{
    match child {
        Child::Policy(_) => Ok(()),
        Child::Set(set) => look_in_children(alloc, policies, set.children.as_slice(), search),
        Child::Reference(reference) => search.look_for(alloc, policies, reference),
    }
}

/// Looks for those of the references in the children of a set.
#[cycle(child)]
fn look_in_children<P: Policies>(
    alloc: Global,
    policies: &P,
    children: &[Child],
    search: &mut Search,
) -> Result<(), AllocError>
    requires { IsSound (map held (P.slots policies.now)) search.old }
    ensures { OnOk result (Leads (map held (P.slots policies.now))
        (flat_map (λ rs. rs) (map references_in children.now)) search.old search.new) }
{
    for child in children {
        look_in(alloc, policies, child, search)?;
    }
    Ok(())
}

/// Looks for those of the references in the document at a place, if there is one.
fn look_at<P: Policies>(
    alloc: Global,
    policies: &P,
    place: &DocPlace,
    search: &mut Search,
) -> Result<(), AllocError>
    requires { IsSound (map held (P.slots policies.now)) search.old }
    ensures { OnOk result (Leads (map held (P.slots policies.now))
        (references_at (map held (P.slots policies.now)) place.now) search.old search.new) }
{
    match policies.document_at(place.number, &place.key) {
        None => Ok(()),
        Some(document) => match document.tree() {
            Tree::Policy(_) => Ok(()),
            Tree::Set(set) => look_in_children(alloc, policies, set.children.as_slice(), search),
        },
    }
}

/// Looks for those of the references in the documents at places.
pub(crate) fn look_at_all<P: Policies>(
    alloc: Global,
    policies: &P,
    places: &[DocPlace],
    search: &mut Search,
) -> Result<(), AllocError>
    requires { IsSound (map held (P.slots policies.now)) search.old }
    ensures { OnOk result (Leads (map held (P.slots policies.now))
        (flat_map (references_at (map held (P.slots policies.now))) places.now) search.old search.new) }
{
    for place in places {
        look_at(alloc, policies, place, search)?;
    }
    Ok(())
}
