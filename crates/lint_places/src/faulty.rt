//! Whether a part of a document has a fault.

ghost use Rattle.std.specs.Prelude.{◌≡◌, IfOk, true};
ghost use Rattle.ent_policy.specs.declared.fault.DocFault.TheVariants.{«Type»};
ghost use Rattle.lint_places.specs.Places.{is_fault, is_faulty};
ghost use Rattle.lint_places.specs.proofs_only.Clear.{IsFineAlone, IsMarked};
ghost use Rattle.lint_places.specs.Views.{scope_of};

use crate::clear::light;
use crate::part::Part;
use crate::parts_told::{scope_told, told};
use crate::scope::Scope;
use ent_json::JsonTree;
use ent_policy::DocFault;
use std::alloc::{AllocError, Global};

/// Whether it is that fault.
pub(crate) fn is_fault(fault: DocFault, told: Option<DocFault>) -> bool
    ensures { result ≡ is_fault fault told }
{
    match told {
        None => false,
        Some(told) => fault.code() == told.code(),
    }
}

/// Whether a part has the fault: it is told of the part, and not of the definitions around it alone.
///
/// # Errors
///
/// `AllocError` if memory runs out.
///
/// Its contract is an equation but for memory.
pub(crate) fn is_faulty<J: JsonTree>(
    alloc: Global,
    fault: DocFault,
    part: Part,
    scope: &Scope<'_, J>,
    json: &J,
) -> Result<bool, AllocError>
    ensures { IfOk result (λ b. b ≡ is_faulty fault part (scope_of J.content scope.now) (J.content json.now)) }
{
    if !is_fault(fault, told(alloc, part, scope, json)?) {
        return Ok(false);
    }
    Ok(!is_fault(fault, scope_told(alloc, scope)?))
}

/// Whether it is seen that a part has no fault of types, without the definitions around it: nothing is told of it where
/// it stands in no policy.
#[tactic(auto, using(crate::proofs::Fine::seen_fine))]
fn is_fine_alone<J: JsonTree>(alloc: Global, part: Part, json: &J) -> Result<bool, AllocError>
    ensures { IfOk result (λ b. b ≡ true → IsFineAlone part (J.content json.now)) }
{
    match part {
        Part::Definition => Ok(false),
        _ => {
            let nowhere = Scope::nowhere(alloc);
            match told(alloc, part, &nowhere, json)? {
                None => Ok(true),
                Some(_) => Ok(false),
            }
        }
    }
}

/// Whether a part has a fault of types. One that is fine by itself isn't judged among the definitions around it.
#[tactic(auto, using(crate::proofs::Fine::fine_there))]
fn has_fault_of_types<J: JsonTree>(
    alloc: Global,
    part: Part,
    scope: &Scope<'_, J>,
    json: &J,
) -> Result<bool, AllocError>
    ensures { IfOk result (λ b. b ≡ is_faulty «Type» part (scope_of J.content scope.now) (J.content json.now)) }
{
    if is_fine_alone(alloc, part, json)? {
        return Ok(false);
    }
    is_faulty(alloc, DocFault::Type, part, scope, json)
}

/// Whether a part has a fault that rests on what the definitions around it say.
fn has_fault_among<J: JsonTree>(
    alloc: Global,
    fault: DocFault,
    part: Part,
    scope: &Scope<'_, J>,
    json: &J,
) -> Result<bool, AllocError>
    ensures { IfOk result (λ b. b ≡ is_faulty fault part (scope_of J.content scope.now) (J.content json.now)) }
{
    match fault {
        DocFault::Type => has_fault_of_types(alloc, part, scope, json),
        _ => is_faulty(alloc, fault, part, scope, json),
    }
}

/// Whether a part has the fault. In a clear scope it is judged without what the definitions say.
pub(crate) fn has_fault<J: JsonTree>(
    alloc: Global,
    fault: DocFault,
    part: Part,
    scope: &Scope<'_, J>,
    json: &J,
) -> Result<bool, AllocError>
    requires { IsMarked J.content fault scope.now }
    ensures { IfOk result (λ b. b ≡ is_faulty fault part (scope_of J.content scope.now) (J.content json.now)) }
{
    if !scope.clear {
        return has_fault_among(alloc, fault, part, scope, json);
    }
    match part {
        Part::Definition => is_faulty(alloc, fault, part, scope, json),
        _ => {
            let light = light(alloc, fault, scope)?;
            Ok(is_fault(fault, told(alloc, part, &light, json)?))
        }
    }
}
