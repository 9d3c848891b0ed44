//! What each function comes to.

ghost use Rattle.std.specs.Prelude.{◌≡◌, false, true, [], ◌∷◌, All, IsSome, IfErr, IfOk, Some, map};
ghost use Rattle.ent_values.specs.Durations.{is_duration};
ghost use Rattle.ent_values.specs.declared.value.Value.TheVariants as values;
ghost use Rattle.ent_functions.specs.Applied.{BooleanFunctionsHaveNoFault, WellTypedCallsHaveAnswers};
ghost use Rattle.ent_functions.specs.Applied.{allocates, applied, bag_result, first_order, sorts};
ghost use Rattle.ent_functions.specs.Arguments.{Applies, are_many_bags, of_two_bags, type_of_arg};
ghost use Rattle.ent_functions.specs.proofs_only.Reading.{IsHeld, Takes, is_date_sum, is_of_bag, is_one_and_only};
ghost use Rattle.ent_functions.specs.proofs_only.Reading.{is_set_test, is_test, makes_bag};
ghost use Rattle.ent_functions.specs.Sets.{in_both};
ghost use Rattle.ent_functions.specs.Types.{bag_of, result_type_of};
ghost use Rattle.ent_functions.specs.declared.arg.Fault.TheVariants.{Memory};
ghost use Rattle.ent_functions.specs.declared.function.Function.TheVariants as functions;

use crate::arg::{Arg, Fault};
use crate::arithmetic::calculated;
use crate::bags::{bag_of, bag_size, is_in, one_and_only};
use crate::dates::{months_earlier, months_later};
use crate::function::{Element, Function};
use crate::higher::{all_of, any_of};
use crate::logic::holds;
use crate::reading::{date_and_months, one_bag, two_bags, value_and_bag};
use crate::sets::{are_equal_sets, have_common, intersection, is_subset, union};
use crate::texts::concatenation;
use ent_values::{Date, Value};
use std::alloc::Global;

/// The result of a function for arguments that it takes (appendix A.3).
///
/// A fault other than `Memory` is the function's own, and the same for the same arguments. `Memory` comes only where
/// the result takes memory: a string or URI out of a bag or joined, or a bag with a value in it; or where two bags that
/// both have more than 16 values are compared or intersected, since the values of one are put in order then.
///
/// Its contract is an equation but for memory.
#[tactic(auto, unfolding(crate::specs::Applied::applied, crate::specs::Types::result_type_of))]
pub fn apply(alloc: Global, function: Function, arguments: &[Arg]) -> Result<Arg, Fault>
    requires { IsSome (result_type_of function (map type_of_arg arguments.now)) }
    ensures value { Applies (sorts function arguments.now) (applied function arguments.now) result }
    ensures memory { IfErr result (λ fault. fault ≡ Memory → allocates function ≡ true) }
    ensures typed { IfOk result (λ v. Some (type_of_arg v) ≡ result_type_of function (map type_of_arg arguments.now)) }
{
    match function {
        Function::AnyOf => Ok(boolean(any_of(arguments))),
        Function::AllOf => Ok(boolean(all_of(arguments))),
        _ => first_order(alloc, function, arguments),
    }
}

// A boolean as a result.
fn boolean(answer: bool) -> Arg
    ensures { result ≡ Arg.One (values.Boolean answer) }
{
    Arg::One(Value::Boolean(answer))
}

// The result of a function that takes no function.
#[tactic(auto, using(crate::proofs::Taken::not_higher, crate::proofs::Memory::may_want))]
fn first_order(alloc: Global, function: Function, arguments: &[Arg]) -> Result<Arg, Fault>
    requires { Takes function arguments.now }
    ensures value { Applies (sorts function arguments.now) (first_order function arguments.now) result }
    ensures memory { IfErr result (λ fault. fault ≡ Memory → allocates function ≡ true) }
    ensures held { is_one_and_only function ≡ true → All IsHeld arguments.now }
{
    match function {
        Function::Equal(_)
        | Function::Compare(_, _)
        | Function::Or
        | Function::And
        | Function::Not
        | Function::StartsWith
        | Function::EndsWith
        | Function::Contains => tested(function, arguments),
        Function::Add
        | Function::Subtract
        | Function::Multiply
        | Function::Divide
        | Function::Mod
        | Function::Abs => calculated(function, arguments),
        Function::OneAndOnly(_) | Function::BagSize(_) | Function::IsIn(_) => {
            of_bag(alloc, function, arguments)
        }
        Function::Bag(_) | Function::Union(_) | Function::Intersection(_) => {
            made_bag(alloc, function, arguments)
        }
        Function::AtLeastOneMemberOf(_) | Function::Subset(_) | Function::SetEquals(_) => {
            compared_as_sets(alloc, function, arguments)
        }
        Function::Concatenate => concatenated(alloc, arguments),
        Function::DateAdd | Function::DateSubtract => moved(function, arguments),
        Function::AnyOf | Function::AllOf => unreachable!(),
    }
}

// What a function of values that gives a boolean comes to.
#[tactic(auto, using(crate::proofs::Comparing::seen_none))]
fn tested(function: Function, arguments: &[Arg]) -> Result<Arg, Fault>
    requires test { is_test function ≡ true }
    requires taken { Takes function arguments.now }
    ensures { result ≡ first_order function arguments.now }
{
    Ok(boolean(holds(function, arguments, None)))
}

// What a function of one bag, or of a value and a bag, comes to.
#[tactic(auto, using(crate::proofs::Taken::of_bags), unfolding(crate::specs::Applied::first_order))]
fn of_bag(alloc: Global, function: Function, arguments: &[Arg]) -> Result<Arg, Fault>
    requires kind { is_of_bag function ≡ true }
    requires taken { Takes function arguments.now }
    ensures value { Applies (sorts function arguments.now) (first_order function arguments.now) result }
    ensures memory { IfErr result (λ fault. fault ≡ Memory → allocates function ≡ true) }
    ensures held { is_one_and_only function ≡ true → All IsHeld arguments.now }
{
    match function {
        Function::OneAndOnly(_) => one_and_only(alloc, one_bag(arguments)),
        Function::BagSize(_) => bag_size(one_bag(arguments)),
        Function::IsIn(_) => {
            let (value, bag) = value_and_bag(arguments);
            Ok(boolean(is_in(value, bag.values())))
        }
        _ => unreachable!(),
    }
}

// The bag that a function makes.
#[tactic(auto, using(crate::proofs::Taken::making_bags), unfolding(crate::specs::Applied::first_order))]
fn made_bag(alloc: Global, function: Function, arguments: &[Arg]) -> Result<Arg, Fault>
    requires kind { makes_bag function ≡ true }
    requires taken { Takes function arguments.now }
    ensures { Applies (sorts function arguments.now) (first_order function arguments.now) result }
{
    match function {
        Function::Bag(element) => bag_of(alloc, element, arguments),
        Function::Union(element) => union(alloc, element, arguments),
        Function::Intersection(element) => intersected(alloc, element, arguments),
        _ => unreachable!(),
    }
}

// The values of the first bag that are in the second.
#[tactic(auto, using(crate::proofs::Taken::two_bags_of))]
fn intersected(alloc: Global, element: Element, arguments: &[Arg]) -> Result<Arg, Fault>
    requires { map type_of_arg arguments.now ≡ bag_of element ∷ bag_of element ∷ [] }
    ensures { Applies (are_many_bags arguments.now)
        (of_two_bags (λ first second. bag_result element (in_both first second)) arguments.now) result }
{
    let (first, second) = two_bags(arguments);
    intersection(alloc, first, second)
}

// How two bags lie to each other as sets.
#[tactic(auto, using(crate::proofs::Taken::two_bags_taken), unfolding(crate::specs::Applied::first_order))]
fn compared_as_sets(alloc: Global, function: Function, arguments: &[Arg]) -> Result<Arg, Fault>
    requires kind { is_set_test function ≡ true }
    requires taken { Takes function arguments.now }
    ensures { Applies (sorts function arguments.now) (first_order function arguments.now) result }
{
    let (first, second) = two_bags(arguments);
    let (first, second) = (first.values(), second.values());
    match function {
        Function::AtLeastOneMemberOf(_) => Ok(boolean(have_common(alloc, first, second)?)),
        Function::Subset(_) => Ok(boolean(is_subset(alloc, first, second)?)),
        Function::SetEquals(_) => Ok(boolean(are_equal_sets(alloc, first, second)?)),
        _ => unreachable!(),
    }
}

// The strings one after the other.
#[tactic(auto, unfolding(crate::specs::Applied::first_order))]
fn concatenated(alloc: Global, arguments: &[Arg]) -> Result<Arg, Fault>
    ensures { Applies false (first_order functions.Concatenate arguments.now) result }
{
    concatenation(alloc, arguments)
}

// The date that lies so many months after a date, or before it.
#[tactic(auto, using(crate::proofs::Taken::date_sum_taken))]
fn moved(function: Function, arguments: &[Arg]) -> Result<Arg, Fault>
    requires kind { is_date_sum function ≡ true }
    requires taken { Takes function arguments.now }
    ensures { result ≡ first_order function arguments.now }
{
    let (date, duration) = date_and_months(arguments);
    moved_by(function, date, duration.months())
}

// The date that lies so many months after a date, or before it.
#[tactic(auto, unfolding(crate::specs::Applied::first_order))]
fn moved_by(function: Function, date: Date, months: i64) -> Result<Arg, Fault>
    requires kind { is_date_sum function ≡ true }
    requires within { is_duration months ≡ true }
    ensures { result ≡ first_order function (Arg.One (values.Date date) ∷ Arg.One (values.YearMonth months) ∷ []) }
{
    match function {
        Function::DateAdd => months_later(date, months),
        Function::DateSubtract => months_earlier(date, months),
        _ => unreachable!(),
    }
}

/// A law, with nothing to run: on single values a function that gives a boolean has no fault.
pub fn boolean_functions_have_no_fault()
    ensures { BooleanFunctionsHaveNoFault }
{}

/// A law, with nothing to run: a function has a value or a fault of its own for all arguments that it takes.
pub fn well_typed_calls_have_answers()
    ensures { WellTypedCallsHaveAnswers }
{}
