//! References that find none of the documents that are held.

ghost use Rattle.std.specs.Prelude.{◌≡◌, IfOk, map};
ghost use Rattle.ent_finder.specs.Slots.{held};
ghost use Rattle.lint_links.specs.Together.{finds_none, namesakes, unfound};
ghost use Rattle.lint_links.specs.proofs_only.Found.{AreFound};
ghost use Rattle.lint_links.specs.proofs_only.Rows.{entry_of};

use crate::found::FoundDocuments;
use crate::held::Held;
use crate::placed::{PlacedReference, references_of};
use ent_finder::MapDocs;
use ent_policy::{DocKey, Document, Kind, Reference, VersionConstraints};
use ent_values::Items;
use std::alloc::{AllocError, Global};

/// Whether a reference finds none of the documents.
fn finds_none(docs: &MapDocs, found: &FoundDocuments, placed: &PlacedReference) -> bool
    requires { AreFound (held docs.now) found.now }
    ensures { result ≡ finds_none (held docs.now) placed.now }
{
    !found.finds(docs, &placed.reference)
}

/// The references of a document that find none of the documents of a module, in the order in which they stand
/// (sections 5.10 and 5.11).
///
/// # Errors
///
/// `AllocError` if memory runs out.
///
/// Its contract is an equation but for memory.
pub(crate) fn unfound(
    alloc: Global,
    docs: &MapDocs,
    document: &Document,
) -> Result<Items<PlacedReference>, AllocError>
    ensures { IfOk result (λ all. all ≡ unfound (held docs.now) document.now) }
{
    unfound_among(alloc, docs, &FoundDocuments::new(alloc), document)
}

/// Those that `unfound` gives, where some references were looked for before.
pub(crate) fn unfound_among(
    alloc: Global,
    docs: &MapDocs,
    found: &FoundDocuments,
    document: &Document,
) -> Result<Items<PlacedReference>, AllocError>
    requires { AreFound (held docs.now) found.now }
    ensures { IfOk result (λ all. all ≡ unfound (held docs.now) document.now) }
{
    let placed = references_of(alloc, document)?;
    let mut all = Items::new(alloc);
    let placed = placed.as_slice();
    for one in placed {
        if finds_none(docs, found, one) {
            all.push(one.copy(alloc)?)?;
        }
    }
    Ok(all)
}

/// A reference to any version of the document of the other kind with the same id.
pub(crate) fn turned(alloc: Global, reference: &Reference) -> Result<Reference, AllocError> {
    let kind = match reference.kind {
        Kind::Policy => Kind::PolicySet,
        Kind::PolicySet => Kind::Policy,
    };
    Ok(Reference {
        kind,
        id: reference.id.copy(alloc)?,
        constraints: VersionConstraints::none(),
    })
}

/// The keys of the documents that have the kind and the id of a reference, whatever their versions.
///
/// # Errors
///
/// `AllocError` if memory runs out.
///
/// Its contract is an equation but for memory.
pub fn namesakes<'a>(
    alloc: Global,
    all: &[Held<'a>],
    reference: &Reference,
) -> Result<Vec<&'a DocKey>, AllocError>
    ensures { IfOk result (λ keys. map (λ key. key.now) keys.items ≡ namesakes (map entry_of all.now) reference.now) }
{
    let mut keys = Vec::new(alloc);
    for one in all {
        if reference.is_of(one.key) {
            keys.push(one.key)?;
        }
    }
    Ok(keys)
}
