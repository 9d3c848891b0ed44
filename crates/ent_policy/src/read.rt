//! What is read of the parts of a document.

ghost use Rattle.std.specs.Prelude.{◌≡◌, IfOk};
ghost use Rattle.ent_policy.specs.Reading.{done, each_read, known};

use crate::fault::DocFault;
use crate::first::earlier;
use ent_values::Items;
use std::alloc::{AllocError, Global};

/// What is read of a part, and the first fault of a name or a value in it that can't be read. Where there is one, a
/// stand-in is in its place.
#[derive(Drop)]
pub(crate) struct Read<T> {
    pub(crate) value: T,
    pub(crate) fault: Option<DocFault>,
}

/// A part as read, of which a `T` is read.
pub(crate) trait Readable<T: Drop>: Drop {
    ghost use Rattle.std.specs.Prelude.{◌≡◌, IfOk};
    ghost use Rattle.ent_policy.specs.declared.read.Read.{Read};

    ghost what: { Self → Read T };

    fn read(self, alloc: Global) -> Result<Read<T>, AllocError>
        ensures { IfOk result (λ r. r ≡ what self) };
}

/// What is there, without a fault.
pub(crate) fn done<T: Drop>(value: T) -> Read<T>
    ensures { result ≡ done value }
{
    Read { value, fault: None }
}

/// What is made of what was read.
pub(crate) fn made<T: Drop, U: Drop, F: FnOnce(T) -> U + Drop>(read: Read<T>, make: F) -> Read<U>
    requires { F.IsAlwaysCallable make }
    ensures value { F.post make read.value result.value }
    ensures fault { result.fault ≡ read.fault }
{
    let Read { value, fault } = read;
    Read {
        value: make(value),
        fault,
    }
}

/// What is known; or else the fault, and a stand-in.
pub(crate) fn known<T: Drop>(stand_in: T, fault: DocFault, found: Option<T>) -> Read<T>
    ensures { result ≡ known stand_in fault found }
{
    match found {
        None => Read {
            value: stand_in,
            fault: Some(fault),
        },
        Some(value) => done(value),
    }
}

/// Each part, read.
pub(crate) fn each<T: Drop, R: Readable<T>>(
    alloc: Global,
    raw: Items<R>,
) -> Result<Read<Items<T>>, AllocError>
    ensures { IfOk result (λ r. r ≡ each_read R.what raw) }
{
    let mut value = Items::with_capacity(alloc, raw.len())?;
    let mut fault = None;
    for part in raw.into_vec() {
        let Read {
            value: one,
            fault: found,
        } = part.read(alloc)?;
        value.push(one)?;
        fault = earlier(fault, found);
    }
    Ok(Read { value, fault })
}
