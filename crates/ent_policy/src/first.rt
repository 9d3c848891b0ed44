//! The first of some faults.

ghost use Rattle.std.specs.Prelude.{◌≡◌};
ghost use Rattle.ent_policy.specs.First.{earlier, first_of, if_so, place};

use crate::fault::DocFault;

impl DocFault {
    /// The place of the fault in the order in which faults are told.
    fn place(self) -> u8
        ensures { result ≡ place self }
    {
        match self {
            DocFault::Form => 0,
            DocFault::Identifier => 1,
            DocFault::Version => 2,
            DocFault::Algorithm => 3,
            DocFault::Function => 4,
            DocFault::Variable => 5,
            DocFault::Size => 6,
            DocFault::Depth => 7,
            DocFault::Type => 8,
        }
    }
}

/// The fault, where the test says so.
pub(crate) fn if_so(test: bool, fault: DocFault) -> Option<DocFault>
    ensures { result ≡ if_so test fault }
{
    if test { Some(fault) } else { None }
}

/// The one of two faults that is told first.
pub(crate) fn earlier(found: Option<DocFault>, other: Option<DocFault>) -> Option<DocFault>
    ensures { result ≡ earlier found other }
{
    match (found, other) {
        (None, other) => other,
        (Some(fault), None) => Some(fault),
        (Some(fault), Some(other)) => {
            if fault.place() <= other.place() {
                Some(fault)
            } else {
                Some(other)
            }
        }
    }
}

/// The one of some faults that is told first.
pub(crate) fn first_of(faults: &[Option<DocFault>]) -> Option<DocFault>
    ensures { result ≡ first_of faults.now }
{
    let mut first = None;
    for fault in faults {
        first = earlier(first, *fault);
    }
    first
}
