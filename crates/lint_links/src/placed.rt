//! The references of a document, and where each of them stands.

ghost use Rattle.std.specs.Prelude.{◌≡◌, ◌++◌, ◌∷◌, [], IfOk, OnOk};
ghost use Rattle.lint_links.specs.References.{references_below, references_of};
ghost use Rattle.lint_links.specs.proofs_only.Level.{references_in_set};

use ent_policy::{Child, Document, PolicySet, Reference, Tree};
use ent_values::Items;
use std::alloc::{AllocError, Global};

/// A reference of a document, and where it stands (sections 5.10 and 5.11).
#[derive(Drop)]
pub struct PlacedReference {
    /// The numbers of the children that lead to it from the document down, each counted from 0 in its set.
    pub path: Items<usize>,
    /// What it asks for.
    pub reference: Reference,
}

impl PlacedReference {
    /// An equal one.
    pub(crate) fn copy(&self, alloc: Global) -> Result<PlacedReference, AllocError>
        ensures { IfOk result (λ p. p ≡ self.now) }
    {
        placed(alloc, self.path.as_slice(), &self.reference)
    }
}

/// A copy of some numbers.
fn copied(alloc: Global, path: &[usize]) -> Result<Items<usize>, AllocError>
    ensures { IfOk result (λ p. p ≡ path.now) }
{
    let mut all = Items::new(alloc);
    for number in path {
        all.push(*number)?;
    }
    Ok(all)
}

/// A path with one number more.
fn longer(alloc: Global, path: &[usize], number: usize) -> Result<Items<usize>, AllocError>
    ensures { IfOk result (λ p. p ≡ path.now ++ number ∷ []) }
{
    let mut all = copied(alloc, path)?;
    all.push(number)?;
    Ok(all)
}

/// A reference where it stands.
fn placed(
    alloc: Global,
    path: &[usize],
    reference: &Reference,
) -> Result<PlacedReference, AllocError>
    ensures { IfOk result (λ p. p ≡ record { path = path.now; reference = reference.now }) }
{
    let path = copied(alloc, path)?;
    let reference = reference.copy(alloc)?;
    Ok(PlacedReference { path, reference })
}

/// Puts the references of a child of a set last, to which the path leads.
#[cycle(gather)]
#[tactic(auto, using(crate::proofs::Levels::set_level))]
fn gather_child(
    alloc: Global,
    child: &Child,
    path: &[usize],
    all: &mut Items<PlacedReference>,
) -> Result<(), AllocError>
    ensures { OnOk result (all.new ≡ all.old ++ references_below child.now path.now) }
{
    match child {
        Child::Policy(_) => Ok(()),
        Child::Set(set) => gather_set(alloc, set, path, all),
        Child::Reference(reference) => all.push(placed(alloc, path, reference)?),
    }
}

/// Puts the references of a policy set last, to which the path leads.
#[cycle(gather)]
fn gather_set(
    alloc: Global,
    set: &PolicySet,
    path: &[usize],
    all: &mut Items<PlacedReference>,
) -> Result<(), AllocError>
    ensures { OnOk result (all.new ≡ all.old ++ references_in_set set.now path.now) }
{
    let children = set.children.as_slice();
    for (number, child) in children.iter().enumerate() {
        let below = longer(alloc, path, number)?;
        gather_child(alloc, child, below.as_slice(), all)?;
    }
    Ok(())
}

/// The references of a document, in the order in which they stand.
///
/// # Errors
///
/// `AllocError` if memory runs out.
///
/// Its contract is an equation but for memory.
#[tactic(auto, using(crate::proofs::Levels::set_level))]
pub(crate) fn references_of(
    alloc: Global,
    document: &Document,
) -> Result<Items<PlacedReference>, AllocError>
    ensures { IfOk result (λ all. all ≡ references_of document.now) }
{
    let mut all = Items::new(alloc);
    if let Tree::Set(set) = document.tree() {
        gather_set(alloc, set, &[], &mut all)?;
    }
    Ok(all)
}
