//! Functions of higher order.

ghost use Rattle.std.specs.Prelude.{◌≡◌, true, IsSome, map, All};
ghost use Rattle.std.specs.List.{list_any, list_all};
ghost use Rattle.ent_values.specs.Types.{datatype_of};
ghost use Rattle.ent_functions.specs.Applied.{all_of, any_of, comes_true_with};
ghost use Rattle.ent_functions.specs.Arguments.{truth, type_of_arg};
ghost use Rattle.ent_functions.specs.Higher.{bag_values, bag_values_in, with_value};
ghost use Rattle.ent_functions.specs.proofs_only.Reading.{IsInner, Takes, held_type, is_test};
ghost use Rattle.ent_functions.specs.Types.{higher_order_type};

use crate::arg::Arg;
use crate::function::Function;
use crate::logic::holds;
use crate::reading::function_and_rest;
use ent_values::Value;

/// Whether the function is True with one of the bag's values in the bag's place.
pub(crate) fn any_of(arguments: &[Arg]) -> bool
    requires { IsSome (higher_order_type (map type_of_arg arguments.now)) }
    ensures { any_of arguments.now ≡ truth result }
{
    let (function, rest) = function_and_rest(arguments);
    any_holds(function, rest)
}

/// Whether the function is True with each of the bag's values in the bag's place.
pub(crate) fn all_of(arguments: &[Arg]) -> bool
    requires { IsSome (higher_order_type (map type_of_arg arguments.now)) }
    ensures { all_of arguments.now ≡ truth result }
{
    let (function, rest) = function_and_rest(arguments);
    all_hold(function, rest)
}

// Whether the function is True with one of the values of one of the bags in the bag's place: there is one bag.
fn any_holds(function: Function, arguments: &[Arg]) -> bool
    requires { IsInner function arguments.now }
    ensures { result ≡ list_any (λ argument. list_any (comes_true_with function arguments.now) (bag_values_in argument))
        arguments.now }
{
    for argument in arguments {
        if any_holds_with(function, arguments, bag_values(argument)) {
            return true;
        }
    }
    false
}

// Whether the function is True with each of the values of each of the bags in the bag's place: there is one bag.
fn all_hold(function: Function, arguments: &[Arg]) -> bool
    requires { IsInner function arguments.now }
    ensures { result ≡ list_all (λ argument. list_all (comes_true_with function arguments.now) (bag_values_in argument))
        arguments.now }
{
    for argument in arguments {
        if !all_hold_with(function, arguments, bag_values(argument)) {
            return false;
        }
    }
    true
}

// Whether the function is True with one of the values in the bag's place.
fn any_holds_with(function: Function, arguments: &[Arg], values: &[Value]) -> bool
    requires test { is_test function ≡ true }
    requires taken { All (λ value. Takes function (with_value value arguments.now)) values.now }
    ensures { result ≡ list_any (comes_true_with function arguments.now) values.now }
{
    for value in values {
        if holds(function, arguments, Some(value)) {
            return true;
        }
    }
    false
}

// Whether the function is True with each of the values in the bag's place.
fn all_hold_with(function: Function, arguments: &[Arg], values: &[Value]) -> bool
    requires test { is_test function ≡ true }
    requires taken { All (λ value. Takes function (with_value value arguments.now)) values.now }
    ensures { result ≡ list_all (comes_true_with function arguments.now) values.now }
{
    for value in values {
        if !holds(function, arguments, Some(value)) {
            return false;
        }
    }
    true
}

// The values of an argument that is a bag.
fn bag_values(argument: &Arg) -> &[Value]
    ensures value { result.now ≡ bag_values_in argument.now }
    ensures types { All (λ value. datatype_of value ≡ held_type argument.now) (bag_values_in argument.now) }
{
    match argument {
        Arg::Many(bag) => bag.values(),
        _ => &[],
    }
}
