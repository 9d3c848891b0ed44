//! The checker, which makes documents.

ghost use Rattle.std.specs.Prelude.{◌≡◌, IfOk};
ghost use Rattle.ent_policy.specs.Check.{checked, reference_checked, tree_fault, unless_fault, whole_fault};
ghost use Rattle.ent_policy.specs.proofs_only.Check.{WasRead};
ghost use Rattle.ent_policy.specs.First.{earlier};
ghost use Rattle.ent_policy.specs.Children.{as_child};
ghost use Rattle.ent_policy.specs.Gives.{Gives};

use crate::document::{Document, Tree};
use crate::extent::{TOO_LINKED, depth, extent_of};
use crate::fault::{CheckFault, DocFault};
use crate::first::{earlier, first_of, if_so};
use crate::key::Reference;
use crate::limits::limit_fault;
use crate::measure::{TOO_DEEP, TOO_MANY};
use crate::raw::{RawDocument, RawReference};
use crate::read::Read;
use crate::reading::document;
use crate::reading_reference::reference;
use std::alloc::{AllocError, Global};

/// The document that was read, or the one of its faults that stands first in the order of `DocFault`.
///
/// Identifiers have 1 to 256 bytes, lists at most 256 members, a document at most 65,536 expressions and 32 references,
/// and expressions and policy sets nest at most 16 deep. Each expression has a type, also in definitions that aren't
/// used: a match gives a boolean (section 7.6), and so does a condition (section 5.26); an assignment of an obligation
/// or an advice gives a value or a bag (section 5.41), and in those of a set no variable is defined. The texts are
/// moved, not copied.
///
/// Its contract is an equation but for memory.
#[tactic(auto, unfolding(crate::specs::Check::checked, crate::specs::Check::fault_of))]
pub fn check(alloc: Global, raw: RawDocument) -> Result<Document, CheckFault>
    ensures { Gives result (checked raw) }
{
    passed(alloc, document(alloc, raw)?)
}

/// What was read, unless its reading or its tree has a fault.
#[tactic(auto, unfolding(crate::specs::Check::checked, crate::specs::Check::fault_of))]
fn passed(alloc: Global, read: Read<Tree>) -> Result<Document, CheckFault>
    requires { WasRead read }
    ensures { Gives result (unless_fault (earlier read.fault (tree_fault read.value)) read.value) }
{
    match tree_fault(alloc, &read.value) {
        Err(AllocError) => Err(CheckFault::Memory),
        Ok(found) => match earlier(read.fault, found) {
            Some(fault) => Err(CheckFault::Doc(fault)),
            None => Ok(Document::new(read.value)),
        },
    }
}

/// The reference that was read, or its first fault: an id that has no byte or more than 256, or a version pattern that
/// can't be read.
///
/// Its contract is an equation but for memory.
#[tactic(auto, unfolding(crate::specs::Check::reference_checked))]
pub fn check_reference(alloc: Global, raw: RawReference) -> Result<Reference, CheckFault>
    ensures { Gives result (reference_checked raw) }
{
    let Read { value, fault } = reference(alloc, raw)?;
    match fault {
        Some(fault) => Err(CheckFault::Doc(fault)),
        None => Ok(value),
    }
}

/// The first fault of a tree.
#[tactic(auto, unfolding(crate::specs::Check::tree_fault))]
fn tree_fault(alloc: Global, tree: &Tree) -> Result<Option<DocFault>, AllocError>
    ensures { IfOk result (λ f. f ≡ tree_fault tree.now) }
{
    let limit = limit_fault(alloc, tree)?;
    Ok(earlier(limit, whole_fault(alloc, tree)?))
}

/// The first fault of a tree as a whole.
fn whole_fault(alloc: Global, tree: &Tree) -> Result<Option<DocFault>, AllocError>
    ensures { IfOk result (λ f. f ≡ whole_fault (as_child tree.now)) }
{
    let Some(extent) = extent_of(alloc, tree)? else {
        return Ok(Some(DocFault::Variable));
    };
    let is_large = extent.nodes == TOO_MANY || extent.references == TOO_LINKED;
    let is_deep = extent.is_deep || depth(tree) == TOO_DEEP;
    Ok(first_of(&[
        if_so(is_large, DocFault::Size),
        if_so(is_deep, DocFault::Depth),
        if_so(!extent.is_typed, DocFault::Type),
    ]))
}
