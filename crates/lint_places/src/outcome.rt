//! How a part is judged: by its first fault, where it has one.

ghost use Rattle.std.specs.Prelude.{◌≡◌};
ghost use Rattle.ent_policy.specs.First.{earlier, place};
ghost use Rattle.lint_places.specs.Views.{IsFound, Tells};

use ent_policy::{CheckFault, DocFault};
use std::alloc::AllocError;

/// The fault that was told, if one was.
pub(crate) fn found(judged: Result<(), CheckFault>) -> Result<Option<DocFault>, AllocError>
    ensures { IsFound judged result }
{
    match judged {
        Ok(()) => Ok(None),
        Err(CheckFault::Doc(fault)) => Ok(Some(fault)),
        Err(CheckFault::Memory) => Err(AllocError),
    }
}

/// Tells a fault, where there is one.
pub(crate) fn told(first: Option<DocFault>) -> Result<(), CheckFault>
    ensures { Tells result first }
{
    match first {
        Some(fault) => Err(CheckFault::Doc(fault)),
        None => Ok(()),
    }
}

/// The place of a fault in the order in which faults are told.
pub(crate) fn place(fault: DocFault) -> u8
    ensures { result ≡ place fault }
{
    match fault {
        DocFault::Form => 0,
        DocFault::Identifier => 1,
        DocFault::Version => 2,
        DocFault::Algorithm => 3,
        DocFault::Function => 4,
        DocFault::Variable => 5,
        DocFault::Size => 6,
        DocFault::Depth => 7,
        DocFault::Type => 8,
    }
}

/// The one of two faults that is told first.
pub(crate) fn earlier(found: Option<DocFault>, other: Option<DocFault>) -> Option<DocFault>
    ensures { result ≡ earlier found other }
{
    match (found, other) {
        (None, other) => other,
        (Some(fault), None) => Some(fault),
        (Some(fault), Some(other)) => {
            if place(fault) <= place(other) {
                Some(fault)
            } else {
                Some(other)
            }
        }
    }
}
