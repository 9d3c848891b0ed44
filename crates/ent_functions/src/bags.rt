//! Functions of bags, and bags of values.

ghost use Rattle.std.specs.Prelude.{◌≡◌, ◌<◌, false, true, pos, length, IfErr, IfOk, OnErr, OnOk, ◌++◌, All};
ghost use Rattle.ent_values.specs.Types.{is_textual};
ghost use Rattle.ent_functions.specs.Applied.{bag_result};
ghost use Rattle.ent_functions.specs.Arguments.{Applies, values_in, values_of};
ghost use Rattle.ent_functions.specs.Integers.{within_64_bits};
ghost use Rattle.ent_functions.specs.proofs_only.Reading.{HoldType, IsHeld};
ghost use Rattle.ent_functions.specs.Sets.{is_among, only_value};
ghost use Rattle.ent_functions.specs.Types.{element_type};
ghost use Rattle.ent_functions.specs.declared.arg.Fault.TheVariants.{Memory};

use crate::arg::{Arg, Fault};
use crate::arithmetic::made;
use crate::function::Element;
use ent_values::{Bag, Items, Value};
use std::alloc::{AllocError, Global};

/// The only value of a bag.
pub(crate) fn one_and_only(alloc: Global, bag: &Bag) -> Result<Arg, Fault>
    ensures value { Applies false (only_value bag.now.values) result }
    ensures memory { IfErr result (λ fault. fault ≡ Memory → is_textual bag.now.datatype ≡ true) }
    ensures held { IsHeld (Arg.Many bag.now) }
{
    match bag.values() {
        [value] => Ok(Arg::One(value.copy(alloc)?)),
        _ => Err(Fault::NotSingle),
    }
}

/// How many values a bag has, each counted as often as it stands.
pub(crate) fn bag_size(bag: &Bag) -> Result<Arg, Fault>
    ensures { result ≡ within_64_bits (pos (length bag.now.values)) }
{
    made(Fault::Overflow, i64::try_from(bag.len()).ok())
}

/// Whether a value is in a bag.
pub(crate) fn is_in(value: &Value, values: &[Value]) -> bool
    ensures { result ≡ is_among value.now values.now }
{
    values.contains(value)
}

/// The values that an argument holds, itself or as a bag.
pub(crate) fn values_of(argument: &Arg) -> &[Value]
    ensures value { result.now ≡ values_in argument.now }
    ensures held { IsHeld argument.now }
{
    match argument {
        Arg::One(value) => std::slice::from_ref(value),
        Arg::Many(bag) => bag.values(),
        Arg::Fun(_) => &[],
    }
}

/// The values that the arguments hold, in order.
fn all_values(alloc: Global, arguments: &[Arg]) -> Result<Items<Value>, AllocError>
    ensures value { IfOk result (λ values. values ≡ values_of arguments.now) }
    ensures held { OnOk result (All IsHeld arguments.now) }
    ensures filled { OnErr result (0 < length (values_of arguments.now)) }
{
    let mut all = Items::new(alloc);
    for argument in arguments {
        push_all(alloc, &mut all, values_of(argument))?;
    }
    Ok(all)
}

// Puts copies of values last.
fn push_all(alloc: Global, all: &mut Items<Value>, values: &[Value]) -> Result<(), AllocError>
    ensures value { OnOk result (all.new ≡ all.old ++ values.now) }
    ensures filled { OnErr result (0 < length values.now) }
{
    for value in values {
        all.push(value.copy(alloc)?)?;
    }
    Ok(())
}

/// The bag of the values that the arguments hold.
#[tactic(auto, using(crate::proofs::Held::held_values))]
pub(crate) fn bag_of(alloc: Global, element: Element, arguments: &[Arg]) -> Result<Arg, Fault>
    requires { HoldType (element_type element) arguments.now }
    ensures { Applies false (bag_result element (values_of arguments.now)) result }
{
    let values = all_values(alloc, arguments)?;
    Ok(Arg::Many(Bag::of(element.datatype(), values)))
}
