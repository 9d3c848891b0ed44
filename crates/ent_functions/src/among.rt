//! Bags in which values are looked up.

ghost use Rattle.std.specs.Prelude.{◌≡◌, true, length, IfOk, OnErr};
ghost use Rattle.ent_functions.specs.Arguments.{are_many};
ghost use Rattle.ent_functions.specs.proofs_only.Found.{HasAll, IsAmong, has};

use crate::bags::is_in;
use ent_values::Value;
use std::alloc::{AllocError, Global};
use std::collections::BTreeSet;

// So many values of either bag are looked at one after the other, which takes no memory.
const FEW: usize = 16;

/// The values of a bag, among which those of another bag are looked up.
#[derive(Drop)]
pub(crate) enum Among<'a> {
    // As they stand, where one of the bags has few.
    Few(&'a [Value]),
    // In their order, so that a look-up takes time logarithmic in their number.
    Many(BTreeSet<&'a Value>),
}

impl<'a> Among<'a> {
    /// The values of a bag, among which those of `other` are looked up.
    pub(crate) fn of(
        alloc: Global,
        values: &'a [Value],
        other: &[Value],
    ) -> Result<Among<'a>, AllocError>
        ensures value { IfOk result (IsAmong values.now) }
        ensures many { OnErr result (are_many values.now other.now ≡ true) }
    {
        if values.len() <= FEW || other.len() <= FEW {
            return Ok(Among::Few(values));
        }
        let ordered = in_order(alloc, values)?;
        Ok(Among::Many(ordered))
    }

    /// Whether a value is among them.
    pub(crate) fn has(&self, value: &'a Value) -> bool
        ensures { result ≡ has self.now value.now }
    {
        match self {
            Among::Few(values) => is_in(value, *values),
            Among::Many(ordered) => ordered.contains(&value),
        }
    }
}

// Values in their order, each once.
fn in_order<'a>(alloc: Global, values: &'a [Value]) -> Result<BTreeSet<&'a Value>, AllocError>
    ensures { IfOk result (HasAll values.now) }
{
    let mut ordered = BTreeSet::new(alloc);
    for value in values {
        ordered.insert(value)?;
    }
    Ok(ordered)
}
