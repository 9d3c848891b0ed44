//! The functions of values that give a boolean: equality, order, logic, and parts of strings.

ghost use Rattle.std.specs.Prelude.{◌≡◌, true, [], ◌∷◌, option_copied};
ghost use Rattle.std.specs.List.{list_any, list_all};
ghost use Rattle.ent_values.specs.Order.{value_order};
ghost use Rattle.ent_functions.specs.Applied.{first_order};
ghost use Rattle.ent_functions.specs.Arguments.{is_true, truth};
ghost use Rattle.ent_functions.specs.Orders.{stands};
ghost use Rattle.ent_functions.specs.proofs_only.Reading.{Takes, is_test, is_test_of_two, seen_argument};
ghost use Rattle.ent_functions.specs.proofs_only.Reading.{seen_arguments};
ghost use Rattle.ent_functions.specs.Texts.{begins_with, ends_with, has_part};

use crate::arg::Arg;
use crate::function::{Comparison, Function};
use crate::reading::{is_true, two_texts, two_values};
use ent_values::Value;
use std::cmp::Ordering;

/// Whether a function of values that gives a boolean gives True. Where `value` is given, it stands in the bag's place.
#[tactic(auto, using(crate::proofs::Comparing::tests))]
pub(crate) fn holds(function: Function, arguments: &[Arg], value: Option<&Value>) -> bool
    requires test { is_test function ≡ true }
    requires taken { Takes function (seen_arguments (option_copied value) arguments.now) }
    ensures { first_order function (seen_arguments (option_copied value.entry) arguments.now) ≡ truth result }
{
    match function {
        Function::Or => some_true(arguments, value),
        Function::And => all_true(arguments, value),
        Function::Not => !some_true(arguments, value),
        _ => {
            let (first, second) = two_values(arguments, value);
            holds_of_two(function, first, second)
        }
    }
}

// Whether some argument is True.
fn some_true(arguments: &[Arg], value: Option<&Value>) -> bool
    ensures { result ≡ list_any (λ argument. is_true (seen_argument (option_copied value.entry) argument))
        arguments.now }
{
    arguments.iter().any(|argument| is_true(argument, value))
}

// Whether each argument is True.
fn all_true(arguments: &[Arg], value: Option<&Value>) -> bool
    ensures { result ≡ list_all (λ argument. is_true (seen_argument (option_copied value.entry) argument))
        arguments.now }
{
    arguments.iter().all(|argument| is_true(argument, value))
}

// Whether a function of two values that gives a boolean gives True.
#[tactic(auto, using(crate::proofs::Comparing::texts_taken), unfolding(crate::specs::Applied::first_order))]
fn holds_of_two(function: Function, first: &Value, second: &Value) -> bool
    requires test { is_test_of_two function ≡ true }
    requires taken { Takes function (Arg.One first.now ∷ Arg.One second.now ∷ []) }
    ensures { first_order function (Arg.One first.now ∷ Arg.One second.now ∷ []) ≡ truth result }
{
    match function {
        Function::Equal(_) => first == second,
        Function::Compare(comparison, _) => compared(comparison, first, second),
        Function::StartsWith => {
            let (part, text) = two_texts(first, second);
            begins(part, text)
        }
        Function::EndsWith => {
            let (part, text) = two_texts(first, second);
            ends(part, text)
        }
        Function::Contains => {
            let (part, text) = two_texts(first, second);
            is_within(part, text)
        }
        _ => unreachable!(),
    }
}

// Whether the first value is greater, less .. than the second.
fn compared(comparison: Comparison, first: &Value, second: &Value) -> bool
    ensures { result ≡ stands comparison (value_order first.now second.now) }
{
    let order = order(first, second);
    match comparison {
        Comparison::GreaterThan => order == Ordering::Greater,
        Comparison::GreaterThanOrEqual => order != Ordering::Less,
        Comparison::LessThan => order == Ordering::Less,
        Comparison::LessThanOrEqual => order != Ordering::Greater,
    }
}

// How the first value lies to the second.
fn order(first: &Value, second: &Value) -> Ordering
    ensures { result ≡ value_order first.now second.now }
{
    first.cmp(second)
}

// Whether the text begins with the part.
fn begins(part: &str, text: &str) -> bool
    ensures { result ≡ begins_with part.now text.now }
{
    text.starts_with(part)
}

// Whether the text ends with the part.
fn ends(part: &str, text: &str) -> bool
    ensures { result ≡ ends_with part.now text.now }
{
    text.ends_with(part)
}

// Whether the part stands anywhere in the text.
fn is_within(part: &str, text: &str) -> bool
    ensures { result ≡ has_part part.now text.now }
{
    text.contains(part)
}
