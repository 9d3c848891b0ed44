//! How a function reads its arguments.

ghost use Rattle.std.specs.Prelude.{◌≡◌, [], ◌∷◌, map, IsSome, option_copied};
ghost use Rattle.ent_values.specs.Types.{datatype_of};
ghost use Rattle.ent_values.specs.declared.datatype.DataType.TheVariants as data_types;
ghost use Rattle.ent_values.specs.declared.value.Value.TheVariants as values;
ghost use Rattle.ent_functions.specs.Arguments.{type_of_arg, integer_in, is_true};
ghost use Rattle.ent_functions.specs.proofs_only.Reading.{AreOneBag, AreTwoBags, AreTwoValues, AreValueAndBag};
ghost use Rattle.ent_functions.specs.proofs_only.Reading.{seen_argument, seen_arguments};
ghost use Rattle.ent_functions.specs.Types.{higher_order_type};
ghost use Rattle.ent_functions.specs.declared.types.ArgType.TheVariants as types;

use crate::arg::Arg;
use crate::function::Function;
use ent_values::{Bag, Date, Value, YearMonth};

/// The two values that a test is given: its arguments, with `value` in the place of a bag.
pub(crate) fn two_values<'a>(
    arguments: &'a [Arg],
    value: Option<&'a Value>,
) -> (&'a Value, &'a Value)
    requires { AreTwoValues (seen_arguments (option_copied value) arguments.now) }
    ensures { seen_arguments (option_copied value.entry) arguments.now
        ≡ Arg.One result.0.now ∷ Arg.One result.1.now ∷ [] }
{
    match arguments {
        [first, second] => (value_at(first, value), value_at(second, value)),
        _ => unreachable!(),
    }
}

// The value that an argument is, or that stands in its place.
fn value_at<'a>(argument: &'a Arg, value: Option<&'a Value>) -> &'a Value
    requires { (v : Value) × (seen_argument (option_copied value) argument.now ≡ Arg.One v) }
    ensures { seen_argument (option_copied value.entry) argument.now ≡ Arg.One result.now }
{
    match (argument, value) {
        (Arg::One(value), _) => value,
        (Arg::Many(_), Some(value)) => value,
        _ => unreachable!(),
    }
}

/// Whether an argument, or the value in its place, is True.
pub(crate) fn is_true(argument: &Arg, value: Option<&Value>) -> bool
    ensures { result ≡ is_true (seen_argument (option_copied value.entry) argument.now) }
{
    match (argument, value) {
        (Arg::One(Value::Boolean(boolean)), _) => *boolean,
        (Arg::Many(_), Some(Value::Boolean(boolean))) => *boolean,
        _ => false,
    }
}

/// The texts of two strings.
pub(crate) fn two_texts<'a>(first: &'a Value, second: &'a Value) -> (&'a str, &'a str)
    requires { (datatype_of first.now ≡ data_types.Text) × (datatype_of second.now ≡ data_types.Text) }
    ensures { (first.now ≡ values.Text result.0.now) × (second.now ≡ values.Text result.1.now) }
{
    match (first, second) {
        (Value::Text(first), Value::Text(second)) => (first.as_str(), second.as_str()),
        _ => unreachable!(),
    }
}

/// The integer that an argument is.
pub(crate) fn integer(argument: &Arg) -> Option<i64>
    ensures { result ≡ integer_in argument.now }
{
    match argument {
        Arg::One(Value::Integer(number)) => Some(*number),
        _ => None,
    }
}

/// The argument of a function that takes one integer.
pub(crate) fn one_integer(arguments: &[Arg]) -> i64
    requires { map type_of_arg arguments.now ≡ types.One data_types.Integer ∷ [] }
    ensures { arguments.now ≡ Arg.One (values.Integer result) ∷ [] }
{
    match arguments {
        [Arg::One(Value::Integer(number))] => *number,
        _ => unreachable!(),
    }
}

/// The arguments of a function that takes two integers.
pub(crate) fn two_integers(arguments: &[Arg]) -> (i64, i64)
    requires { map type_of_arg arguments.now ≡ types.One data_types.Integer ∷ types.One data_types.Integer ∷ [] }
    ensures { arguments.now ≡ Arg.One (values.Integer result.0) ∷ Arg.One (values.Integer result.1) ∷ [] }
{
    match arguments {
        [
            Arg::One(Value::Integer(first)),
            Arg::One(Value::Integer(second)),
        ] => (*first, *second),
        _ => unreachable!(),
    }
}

/// The arguments of a function that takes a date and a duration.
pub(crate) fn date_and_months(arguments: &[Arg]) -> (Date, YearMonth)
    requires { map type_of_arg arguments.now ≡ types.One data_types.Date ∷ types.One data_types.YearMonth ∷ [] }
    ensures { arguments.now ≡ Arg.One (values.Date result.0) ∷ Arg.One (values.YearMonth result.1) ∷ [] }
{
    match arguments {
        [
            Arg::One(Value::Date(date)),
            Arg::One(Value::YearMonth(months)),
        ] => (*date, *months),
        _ => unreachable!(),
    }
}

/// The argument of a function that takes one bag.
pub(crate) fn one_bag(arguments: &[Arg]) -> &Bag
    requires { AreOneBag arguments.now }
    ensures { arguments.now ≡ Arg.Many result.now ∷ [] }
{
    match arguments {
        [Arg::Many(bag)] => bag,
        _ => unreachable!(),
    }
}

/// The arguments of a function that takes a value and a bag.
pub(crate) fn value_and_bag(arguments: &[Arg]) -> (&Value, &Bag)
    requires { AreValueAndBag arguments.now }
    ensures { arguments.now ≡ Arg.One result.0.now ∷ Arg.Many result.1.now ∷ [] }
{
    match arguments {
        [Arg::One(value), Arg::Many(bag)] => (value, bag),
        _ => unreachable!(),
    }
}

/// The arguments of a function that takes two bags.
pub(crate) fn two_bags(arguments: &[Arg]) -> (&Bag, &Bag)
    requires { AreTwoBags arguments.now }
    ensures { arguments.now ≡ Arg.Many result.0.now ∷ Arg.Many result.1.now ∷ [] }
{
    match arguments {
        [Arg::Many(first), Arg::Many(second)] => (first, second),
        _ => unreachable!(),
    }
}

/// The first argument of a function of higher order, and those behind it.
#[tactic(auto, unfolding(crate::specs::Types::higher_order_type))]
pub(crate) fn function_and_rest(arguments: &[Arg]) -> (Function, &[Arg])
    requires { IsSome (higher_order_type (map type_of_arg arguments.now)) }
    ensures { arguments.now ≡ Arg.Fun result.0 ∷ result.1.now }
{
    match arguments {
        [Arg::Fun(function), rest @ ..] => (*function, rest),
        _ => unreachable!(),
    }
}
