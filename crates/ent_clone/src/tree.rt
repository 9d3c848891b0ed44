//! Equal documents.

ghost use Rattle.std.specs.Prelude.{◌≡◌, IfOk};

use crate::given::copied_given;
use crate::policy::copied_policy;
use crate::target::copied_target;
use ent_policy::{Child, PolicySet, Tree};
use ent_values::Items;
use std::alloc::{AllocError, Global};

/// An equal policy or policy set.
///
/// # Errors
///
/// `AllocError` if memory runs out.
///
/// Its contract is an equation but for memory.
pub fn copied_tree(alloc: Global, tree: &Tree) -> Result<Tree, AllocError>
    ensures { IfOk result (λ copy. copy ≡ tree.now) }
{
    match tree {
        Tree::Policy(policy) => Ok(Tree::Policy(copied_policy(alloc, policy)?)),
        Tree::Set(set) => Ok(Tree::Set(copied_set(alloc, set)?)),
    }
}

// An equal child.
#[cycle(tree)]
fn copied_child(alloc: Global, child: &Child) -> Result<Child, AllocError>
    ensures { IfOk result (λ copy. copy ≡ child.now) }
{
    match child {
        Child::Policy(policy) => Ok(Child::Policy(copied_policy(alloc, policy)?)),
        Child::Set(set) => Ok(Child::Set(copied_set(alloc, set)?)),
        Child::Reference(reference) => Ok(Child::Reference(reference.copy(alloc)?)),
    }
}

// An equal set.
#[cycle(tree)]
fn copied_set(alloc: Global, set: &PolicySet) -> Result<PolicySet, AllocError>
    ensures { IfOk result (λ copy. copy ≡ set.now) }
{
    Ok(PolicySet {
        id: set.id.copy(alloc)?,
        version: set.version.copy(),
        algorithm: set.algorithm,
        target: copied_target(alloc, &set.target)?,
        children: copied_children(alloc, set.children.as_slice())?,
        given: copied_given(alloc, &set.given)?,
    })
}

// Equal children.
#[cycle(tree)]
fn copied_children(alloc: Global, children: &[Child]) -> Result<Items<Child>, AllocError>
    ensures { IfOk result (λ copies. copies ≡ children.now) }
{
    let mut copies = Items::with_capacity(alloc, children.len())?;
    for child in children {
        copies.push(copied_child(alloc, child)?)?;
    }
    Ok(copies)
}
