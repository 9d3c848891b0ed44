//! Bags as sets of values.

ghost use Rattle.std.specs.Prelude.{◌≡◌, ◌<◌, List, [], ◌∷◌, ◌++◌, All, Ok, IfOk, OnErr, OnOk, false, true, length};
ghost use Rattle.ent_values.specs.declared.value.Value.{Value};
ghost use Rattle.ent_functions.specs.Applied.{bag_result};
ghost use Rattle.ent_functions.specs.Arguments.{Applies, are_many, values_of};
ghost use Rattle.ent_functions.specs.proofs_only.Found.{AreFound};
ghost use Rattle.ent_functions.specs.proofs_only.Reading.{HoldType, IsHeld};
ghost use Rattle.ent_functions.specs.Sets.{are_equal_sets, each_once, have_common, in_both, is_subset};
ghost use Rattle.ent_functions.specs.Types.{element_type};

use crate::among::Among;
use crate::arg::{Arg, Fault};
use crate::bags::values_of;
use crate::function::Element;
use ent_values::{Bag, Items, Value};
use std::alloc::{AllocError, Global};
use std::collections::BTreeSet;

/// Whether some value of the first bag is in the second.
pub(crate) fn have_common<'a>(
    alloc: Global,
    first: &'a [Value],
    second: &'a [Value],
) -> Result<bool, AllocError>
    ensures value { IfOk result (λ b. b ≡ have_common first.now second.now) }
    ensures many { OnErr result (are_many first.now second.now ≡ true) }
{
    let among = Among::of(alloc, second, first)?;
    for value in first {
        if among.has(value) {
            return Ok(true);
        }
    }
    Ok(false)
}

/// Whether each value of the first bag is in the second.
pub(crate) fn is_subset<'a>(
    alloc: Global,
    first: &'a [Value],
    second: &'a [Value],
) -> Result<bool, AllocError>
    ensures value { IfOk result (λ b. b ≡ is_subset first.now second.now) }
    ensures many { OnErr result (are_many first.now second.now ≡ true) }
{
    let among = Among::of(alloc, second, first)?;
    for value in first {
        if !among.has(value) {
            return Ok(false);
        }
    }
    Ok(true)
}

/// Whether each value of one bag is in the other, both ways.
pub(crate) fn are_equal_sets<'a>(
    alloc: Global,
    first: &'a [Value],
    second: &'a [Value],
) -> Result<bool, AllocError>
    ensures value { IfOk result (λ b. b ≡ are_equal_sets first.now second.now) }
    ensures many { OnErr result (are_many first.now second.now ≡ true) }
{
    Ok(is_subset(alloc, first, second)? && is_subset(alloc, second, first)?)
}

// Puts a copy of the value last, if it isn't there yet: `seen` has the values that are.
fn add_new<'a>(
    alloc: Global,
    found: &mut Items<Value>,
    seen: &mut BTreeSet<&'a Value>,
    value: &'a Value,
) -> Result<(), AllocError>
    ensures { OnOk result ((values : List Value) → AreFound values found.old seen.old
        → AreFound (values ++ value.now ∷ []) found.new seen.new) }
{
    if seen.insert(value)? {
        found.push(value.copy(alloc)?)?;
    }
    Ok(())
}

// Puts copies of the values last that aren't there yet.
fn add_all_new<'a>(
    alloc: Global,
    found: &mut Items<Value>,
    seen: &mut BTreeSet<&'a Value>,
    values: &'a [Value],
) -> Result<(), AllocError>
    ensures value { OnOk result ((before : List Value) → AreFound before found.old seen.old
        → AreFound (before ++ values.now) found.new seen.new) }
    ensures filled { OnErr result (0 < length values.now) }
{
    for value in values {
        add_new(alloc, found, seen, value)?;
    }
    Ok(())
}

// The values of the first bag that are in the second, each once.
fn common_values<'a>(
    alloc: Global,
    first: &'a [Value],
    second: &'a [Value],
) -> Result<Items<Value>, AllocError>
    ensures value { IfOk result (λ values. values ≡ in_both first.now second.now) }
    ensures filled { OnErr result
        (are_many first.now second.now ≡ false → 0 < length (in_both first.now second.now)) }
{
    let among = Among::of(alloc, second, first)?;
    let mut found = Items::new(alloc);
    let mut seen = BTreeSet::new(alloc);
    for value in first {
        if among.has(value) {
            add_new(alloc, &mut found, &mut seen, value)?;
        }
    }
    Ok(found)
}

// The values that the arguments hold, each once.
fn distinct_values(alloc: Global, arguments: &[Arg]) -> Result<Items<Value>, AllocError>
    ensures value { IfOk result (λ values. values ≡ each_once (values_of arguments.now)) }
    ensures held { OnOk result (All IsHeld arguments.now) }
    ensures filled { OnErr result (0 < length (values_of arguments.now)) }
{
    let mut found = Items::new(alloc);
    let mut seen = BTreeSet::new(alloc);
    for argument in arguments {
        add_all_new(alloc, &mut found, &mut seen, values_of(argument))?;
    }
    Ok(found)
}

/// The bag of the values of the first bag that are in the second, each once.
#[tactic(auto, using(crate::proofs::EachOnce::in_both_types))]
pub(crate) fn intersection(alloc: Global, first: &Bag, second: &Bag) -> Result<Arg, Fault>
    ensures { Applies (are_many first.now.values second.now.values)
        (Ok (Arg.Many (record { datatype = first.now.datatype; values = in_both first.now.values second.now.values })))
        result }
{
    let values = common_values(alloc, first.values(), second.values())?;
    Ok(Arg::Many(Bag::of(first.datatype(), values)))
}

/// The bag of the values that the arguments hold, each once.
#[tactic(auto, using(crate::proofs::Held::held_once))]
pub(crate) fn union(alloc: Global, element: Element, arguments: &[Arg]) -> Result<Arg, Fault>
    requires { HoldType (element_type element) arguments.now }
    ensures { Applies false (bag_result element (each_once (values_of arguments.now))) result }
{
    let values = distinct_values(alloc, arguments)?;
    Ok(Arg::Many(Bag::of(element.datatype(), values)))
}
