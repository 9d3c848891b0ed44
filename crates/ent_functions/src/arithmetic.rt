//! Functions of integers.

ghost use Rattle.std.specs.Prelude.{◌≡◌, true, ℤ, pos, ◌+ℤ◌, ◌-ℤ◌, ◌*ℤ◌, unsigned_abs, SomeIff, FitsSigned, [], ◌∷◌};
ghost use Rattle.std.specs.Int.{w64};
ghost use Rattle.ent_values.specs.declared.value.Value.TheVariants as values;
ghost use Rattle.ent_functions.specs.Applied.{first_order};
ghost use Rattle.ent_functions.specs.Arguments.{integers_of};
ghost use Rattle.ent_functions.specs.Integers.{from_left, quotient, remainder, within_64_bits};
ghost use Rattle.ent_functions.specs.proofs_only.Integers.{integer_or, next_result};
ghost use Rattle.ent_functions.specs.proofs_only.Reading.{Takes, is_arithmetic, is_of_two_integers};

use crate::arg::{Arg, Fault};
use crate::function::Function;
use crate::reading::{integer, one_integer, two_integers};
use ent_values::Value;

/// What a function of integers comes to (appendix A.3.2).
#[tactic(auto, using(crate::proofs::Numbers::calculations))]
pub(crate) fn calculated(function: Function, arguments: &[Arg]) -> Result<Arg, Fault>
    requires kind { is_arithmetic function ≡ true }
    requires taken { Takes function arguments.now }
    ensures { result ≡ first_order function arguments.now }
{
    match function {
        Function::Add => sum(arguments),
        Function::Multiply => product(arguments),
        Function::Abs => absolute(one_integer(arguments)),
        _ => {
            let (first, second) = two_integers(arguments);
            calculated_of_two(function, first, second)
        }
    }
}

// What a function of two integers comes to.
#[tactic(auto, unfolding(crate::specs::Applied::first_order))]
fn calculated_of_two(function: Function, first: i64, second: i64) -> Result<Arg, Fault>
    requires { is_of_two_integers function ≡ true }
    ensures { result ≡ first_order function (Arg.One (values.Integer first) ∷ Arg.One (values.Integer second) ∷ []) }
{
    match function {
        Function::Subtract => difference(first, second),
        Function::Divide => quotient(first, second),
        Function::Mod => remainder(first, second),
        _ => unreachable!(),
    }
}

/// An integer as a result, or that fault if there is none.
pub(crate) fn made(fault: Fault, number: Option<i64>) -> Result<Arg, Fault>
    ensures { result ≡ integer_or fault number }
{
    match number {
        Some(number) => Ok(Arg::One(Value::Integer(number))),
        None => Err(fault),
    }
}

// The integers added from left to right.
fn sum(arguments: &[Arg]) -> Result<Arg, Fault>
    ensures { result ≡ from_left ◌+ℤ◌ (pos 0) (integers_of arguments.now) }
{
    let mut total: i64 = 0;
    for argument in arguments {
        let Some(next) = plus(total, argument) else {
            return Err(Fault::Overflow);
        };
        total = next;
    }
    Ok(Arg::One(Value::Integer(total)))
}

// The total and one argument more.
fn plus(total: i64, argument: &Arg) -> Option<i64>
    ensures { SomeIff result (FitsSigned w64 (next_result ◌+ℤ◌ total argument.now))
        (next_result ◌+ℤ◌ total argument.now) }
{
    match integer(argument) {
        Some(number) => total.checked_add(number),
        None => Some(total),
    }
}

// The integers multiplied from left to right.
fn product(arguments: &[Arg]) -> Result<Arg, Fault>
    ensures { result ≡ from_left ◌*ℤ◌ (pos 1) (integers_of arguments.now) }
{
    let mut total: i64 = 1;
    for argument in arguments {
        let Some(next) = times(total, argument) else {
            return Err(Fault::Overflow);
        };
        total = next;
    }
    Ok(Arg::One(Value::Integer(total)))
}

// The total times one argument more.
fn times(total: i64, argument: &Arg) -> Option<i64>
    ensures { SomeIff result (FitsSigned w64 (next_result ◌*ℤ◌ total argument.now))
        (next_result ◌*ℤ◌ total argument.now) }
{
    match integer(argument) {
        Some(number) => total.checked_mul(number),
        None => Some(total),
    }
}

// The first integer less the second.
#[tactic(auto, using(crate::proofs::Numbers::checked))]
fn difference(first: i64, second: i64) -> Result<Arg, Fault>
    ensures { result ≡ within_64_bits (first -ℤ second) }
{
    made(Fault::Overflow, first.checked_sub(second))
}

// The first integer divided by the second, cut toward zero.
fn quotient(dividend: i64, divisor: i64) -> Result<Arg, Fault>
    ensures { result ≡ quotient dividend divisor }
{
    if divisor == 0 {
        return Err(Fault::DivideByZero);
    }
    made(Fault::Overflow, dividend.checked_div(divisor))
}

// What is left of the first integer, with its sign. It is 0 where the divisor is -1, also where the quotient is too
// large.
fn remainder(dividend: i64, divisor: i64) -> Result<Arg, Fault>
    ensures { result ≡ remainder dividend divisor }
{
    if divisor == 0 {
        return Err(Fault::DivideByZero);
    }
    Ok(Arg::One(Value::Integer(dividend.wrapping_rem(divisor))))
}

// The integer without its sign.
fn absolute(number: i64) -> Result<Arg, Fault>
    ensures { result ≡ within_64_bits (pos (unsigned_abs number)) }
{
    made(Fault::Overflow, number.checked_abs())
}
