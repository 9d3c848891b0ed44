//! Clear scopes: what a part of one has of a fault has nothing to do with what the definitions around it say.

ghost use Rattle.std.specs.Prelude.{◌≡◌, IfOk, true};
ghost use Rattle.lint_places.specs.Views.{scope_of};
ghost use Rattle.lint_places.specs.proofs_only.Clear.{IsClear, IsFree, IsMarked, is_early, is_later, light};

use crate::outcome::{found, place};
use crate::scope::Scope;
use crate::surroundings::{judged, of_rules};
use ent_json::JsonTree;
use ent_policy::{CheckFault, DocFault};
use ent_values::Items;
use std::alloc::{AllocError, Global};

/// Whether a fault is told no later than those of variables, so that it asks for no type, depth or size.
fn is_early(fault: DocFault) -> bool
    ensures { result ≡ is_early fault }
{
    place(fault) <= place(DocFault::Variable)
}

/// Whether what is told is told later than the fault, or nothing is told.
pub(crate) fn is_later(fault: DocFault, told: Option<DocFault>) -> bool
    ensures { result ≡ is_later fault told }
{
    match told {
        None => true,
        Some(told) => place(fault) < place(told),
    }
}

/// Whether it is seen that the definitions of a scope can be read, and that nothing is told of them up to the fault.
fn is_free<J: JsonTree>(
    alloc: Global,
    fault: DocFault,
    scope: &Scope<'_, J>,
) -> Result<bool, AllocError>
    ensures { IfOk result (λ b. b ≡ true → IsFree fault (scope_of J.content scope.now)) }
{
    match scope.variables(alloc) {
        Err(CheckFault::Memory) => Err(AllocError),
        Err(CheckFault::Doc(_)) => Ok(false),
        Ok(variables) => {
            let document = of_rules(alloc, Items::new(alloc), variables)?;
            Ok(is_later(fault, found(judged(alloc, document))?))
        }
    }
}

/// The scope in which a part of a clear scope is judged: for a fault of variables with the names of the definitions,
/// for one that is told before those without any.
pub(crate) fn light<'a, J: JsonTree>(
    alloc: Global,
    fault: DocFault,
    scope: &Scope<'a, J>,
) -> Result<Scope<'a, J>, AllocError>
    ensures { IfOk result (λ s. scope_of J.content s ≡ light fault (scope_of J.content scope.now)) }
{
    match fault {
        DocFault::Variable => scope.bare(alloc),
        _ => Ok(Scope::nowhere(alloc)),
    }
}

/// Whether it is seen that a scope is clear: the fault is told early, and nothing is told up to it of the definitions,
/// nor in the scope that takes their place.
fn is_clear<J: JsonTree>(
    alloc: Global,
    fault: DocFault,
    scope: &Scope<'_, J>,
) -> Result<bool, AllocError>
    ensures { IfOk result (λ b. b ≡ true → IsClear fault (scope_of J.content scope.now)) }
{
    if !is_early(fault) || !is_free(alloc, fault, scope)? {
        return Ok(false);
    }
    let light = light(alloc, fault, scope)?;
    is_free(alloc, fault, &light)
}

/// A copy of a scope, of which it is marked whether it is seen to be clear.
pub(crate) fn marked<'a, J: JsonTree>(
    alloc: Global,
    fault: DocFault,
    scope: Scope<'a, J>,
) -> Result<Scope<'a, J>, AllocError>
    ensures same { IfOk result (λ s. scope_of J.content s ≡ scope_of J.content scope.entry) }
    ensures marked { IfOk result (λ s. IsMarked J.content fault s) }
{
    let clear = is_clear(alloc, fault, &scope)?;
    Ok(Scope {
        definitions: scope.definitions,
        aside: scope.aside,
        standing: scope.standing,
        clear,
    })
}
