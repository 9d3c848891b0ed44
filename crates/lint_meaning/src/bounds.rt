//! Arguments of one `and` that no value meets together.

ghost use Rattle.std.specs.Prelude.{◌≡◌, ◌≤◌, ◌++◌, OnOk, codes, length, option_map, take};
ghost use Rattle.ent_policy.specs.declared.expression.Expression.TheViews.{out-Expression};
ghost use Rattle.lint_meaning.specs.Bounds.{ComparisonsAskForLimits, NoValueLiesBelowTheLeast, NoValueMeetsBoth};
ghost use Rattle.lint_meaning.specs.Bounds.{TurnedLimitsAskTheSame, application_told, bound_between, is_least};
ghost use Rattle.lint_meaning.specs.Bounds.{is_nowhere, is_unmet, is_unmet_from};
ghost use Rattle.lint_meaning.specs.Bounds.{apart_from, bound_by, bound_of, excludes, first_excluding, is_ceiling};
ghost use Rattle.lint_meaning.specs.Bounds.{is_empty, is_empty_between, is_floor, is_met, leaves_none, limit_of};
ghost use Rattle.lint_meaning.specs.Bounds.{told_of_arguments, turned};
ghost use Rattle.lint_meaning.specs.Places.{member, told_if, told_of};
ghost use Rattle.lint_meaning.specs.declared.warning.Meaning.TheVariants as meaning;
ghost use Rattle.lint_meaning.specs.proofs_only.Views.{bound};

use crate::places::{member, put};
use crate::warning::{Meaning, Warning};
use ent_functions::{Comparison, Function};
use ent_policy::Expression;
use ent_values::{Items, Value};
use std::alloc::{AllocError, Global};
use std::cmp::Ordering;

/// Where a value lies to a literal.
#[derive(Clone, Copy, PartialEq, Eq)]
pub(crate) enum Limit {
    /// It is the literal.
    Exactly,
    /// It is greater.
    Above,
    /// It is greater or the same.
    From,
    /// It is less.
    Below,
    /// It is less or the same.
    UpTo,
}

impl Limit {
    /// Where the literal then lies to the value.
    fn turned(self) -> Limit
        ensures { result ≡ turned self }
    {
        match self {
            Limit::Exactly => Limit::Exactly,
            Limit::Above => Limit::Below,
            Limit::From => Limit::UpTo,
            Limit::Below => Limit::Above,
            Limit::UpTo => Limit::From,
        }
    }

    /// Whether no value less than the literal meets it.
    fn is_floor(self) -> bool
        ensures { result ≡ is_floor self }
    {
        matches!(self, Limit::Exactly | Limit::Above | Limit::From)
    }

    /// Whether no value greater than the literal meets it.
    fn is_ceiling(self) -> bool
        ensures { result ≡ is_ceiling self }
    {
        matches!(self, Limit::Exactly | Limit::Below | Limit::UpTo)
    }

    /// Whether the literal itself meets it.
    fn is_met(self) -> bool
        ensures { result ≡ is_met self }
    {
        matches!(self, Limit::Exactly | Limit::From | Limit::UpTo)
    }
}

/// What an argument of an `and` asks: where the value of a term lies to a literal.
#[derive(Clone, Copy)]
struct LentBound<'a> {
    term: &'a Expression,
    limit: Limit,
    value: &'a Value,
}

/// Where a function asks whether its first argument lies to its second, if it does.
fn limit_of(function: Function) -> Option<Limit>
    ensures { result ≡ limit_of function }
{
    match function {
        Function::Equal(_) => Some(Limit::Exactly),
        Function::Compare(Comparison::GreaterThan, _) => Some(Limit::Above),
        Function::Compare(Comparison::GreaterThanOrEqual, _) => Some(Limit::From),
        Function::Compare(Comparison::LessThan, _) => Some(Limit::Below),
        Function::Compare(Comparison::LessThanOrEqual, _) => Some(Limit::UpTo),
        _ => None,
    }
}

/// The bound that a literal and another argument make, the literal second or first.
fn bound_by<'a>(
    limit: Limit,
    first: &'a Expression,
    second: &'a Expression,
) -> Option<LentBound<'a>>
    ensures { option_map bound result
        ≡ bound_by limit first.now second.now (out-Expression first.now) (out-Expression second.now) }
{
    match (first, second) {
        (_, Expression::Value(value)) => Some(LentBound {
            term: first,
            limit,
            value,
        }),
        (Expression::Value(value), _) => Some(LentBound {
            term: second,
            limit: limit.turned(),
            value,
        }),
        _ => None,
    }
}

/// The bound that the arguments of a function make, if they do.
fn bound_between(function: Function, arguments: &[Expression]) -> Option<LentBound<'_>>
    ensures { option_map bound result ≡ bound_between (limit_of function) arguments.now }
{
    let limit = limit_of(function)?;
    let [first, second] = arguments else {
        return None;
    };
    bound_by(limit, first, second)
}

/// What an argument asks, if it asks so.
fn bound_of(argument: &Expression) -> Option<LentBound<'_>>
    ensures { option_map bound result ≡ bound_of argument.now }
{
    match argument {
        Expression::Apply(function, arguments) => bound_between(*function, arguments.as_slice()),
        _ => None,
    }
}

/// Whether no value of its type is less.
fn is_least(value: &Value) -> bool
    ensures { result ≡ is_least value.now }
{
    match value {
        Value::Time(time) => time.hour() == 0 && time.minute() == 0 && time.second() == 0,
        Value::Text(text) => text.as_str().is_empty(),
        _ => false,
    }
}

/// Whether no value lies there.
fn is_nowhere(limit: Limit, literal: &Value) -> bool
    ensures { result ≡ is_nowhere limit literal.now }
{
    match limit {
        Limit::Below => is_least(literal),
        _ => false,
    }
}

/// Whether no value meets the bound that the arguments of a function make.
fn is_unmet(function: Function, arguments: &[Expression]) -> bool
    ensures { result ≡ is_unmet (bound_between (limit_of function) arguments.now) }
{
    match bound_between(function, arguments) {
        Some(bound) => is_nowhere(bound.limit, bound.value),
        None => false,
    }
}

/// Whether a function with a literal first is true of no value.
pub(crate) fn is_unmet_from(function: Function, literal: &Value) -> bool
    ensures { result ≡ is_unmet_from (limit_of function) literal.now }
{
    match limit_of(function) {
        Some(limit) => is_nowhere(limit.turned(), literal),
        None => false,
    }
}

/// Whether a floor that lies so to a ceiling leaves nothing between, where the literal of both may meet both or not.
fn leaves_none(both: bool, order: Ordering) -> bool
    ensures { result ≡ leaves_none both order }
{
    match order {
        Ordering::Greater => true,
        Ordering::Equal => !both,
        Ordering::Less => false,
    }
}

/// Whether nothing lies above a floor and below a ceiling.
fn is_empty_between(floor: Limit, low: &Value, ceiling: Limit, high: &Value) -> bool
    ensures { result ≡ is_empty_between floor low.now ceiling high.now }
{
    floor.is_floor()
        && ceiling.is_ceiling()
        && leaves_none(floor.is_met() && ceiling.is_met(), low.cmp(high))
}

/// Whether no value meets both limits.
fn is_empty(one: Limit, value: &Value, other: Limit, second: &Value) -> bool
    ensures { result ≡ is_empty one value.now other second.now }
{
    is_empty_between(one, value, other, second) || is_empty_between(other, second, one, value)
}

/// Whether two arguments ask the same term for what no value meets.
fn excludes(one: &Expression, other: &Expression) -> bool
    ensures { result ≡ excludes one.now other.now }
{
    match (bound_of(one), bound_of(other)) {
        (Some(one), Some(other)) => {
            is_empty(one.limit, one.value, other.limit, other.value) && one.term == other.term
        }
        _ => false,
    }
}

/// The number of the first of some arguments that excludes another.
fn first_excluding(others: &[Expression], argument: &Expression) -> Option<usize>
    ensures { result ≡ first_excluding 0 others.now argument.now }
{
    for (number, other) in others.iter().enumerate() {
        if excludes(other, argument) {
            return Some(number);
        }
    }
    None
}

/// Puts what is told of the argument of that number of an `and` last, if one before it excludes it.
fn tell_apart_at(
    alloc: Global,
    pointer: &str,
    number: usize,
    arguments: &[Expression],
    argument: &Expression,
    warnings: &mut Items<Warning>,
) -> Result<(), AllocError>
    requires { number ≤ length arguments.now }
    ensures { OnOk result (warnings.new ≡ warnings.old
        ++ told_of meaning.Apart (first_excluding 0 (take number arguments.now) argument.now)
        (member pointer.now (codes "Apply/Arguments") number)) }
{
    match first_excluding(&arguments[..number], argument) {
        None => Ok(()),
        Some(other) => {
            let place = member(alloc, pointer, "Apply/Arguments", number)?;
            put(alloc, place.as_str(), Meaning::Apart(other), warnings)
        }
    }
}

/// Puts what is told of the arguments of an `and` last.
fn tell_apart(
    alloc: Global,
    pointer: &str,
    arguments: &[Expression],
    warnings: &mut Items<Warning>,
) -> Result<(), AllocError>
    ensures { OnOk result (warnings.new ≡ warnings.old ++ apart_from arguments.now 0 arguments.now pointer.now) }
{
    for (number, argument) in arguments.iter().enumerate() {
        tell_apart_at(alloc, pointer, number, arguments, argument, warnings)?;
    }
    Ok(())
}

/// Puts that no value meets the bound that the arguments of a function make last, if none does.
fn tell_unmet(
    alloc: Global,
    pointer: &str,
    function: Function,
    arguments: &[Expression],
    warnings: &mut Items<Warning>,
) -> Result<(), AllocError>
    ensures { OnOk result (warnings.new ≡ warnings.old
        ++ told_if (is_unmet (bound_between (limit_of function) arguments.now)) meaning.Least pointer.now) }
{
    if is_unmet(function, arguments) {
        return put(alloc, pointer, Meaning::Least, warnings);
    }
    Ok(())
}

/// Puts what is told of the arguments of a function last, which stand in its application at a place.
fn tell_arguments(
    alloc: Global,
    pointer: &str,
    function: Function,
    arguments: &[Expression],
    warnings: &mut Items<Warning>,
) -> Result<(), AllocError>
    ensures { OnOk result (warnings.new ≡ warnings.old ++ told_of_arguments function arguments.now pointer.now) }
{
    match function {
        Function::And => tell_apart(alloc, pointer, arguments, warnings),
        _ => Ok(()),
    }
}

/// Puts what is told of the application of a function at a place last.
pub(crate) fn tell_application(
    alloc: Global,
    pointer: &str,
    function: Function,
    arguments: &[Expression],
    warnings: &mut Items<Warning>,
) -> Result<(), AllocError>
    ensures { OnOk result (warnings.new ≡ warnings.old ++ application_told function arguments.now pointer.now) }
{
    tell_unmet(alloc, pointer, function, arguments, warnings)?;
    tell_arguments(alloc, pointer, function, arguments, warnings)
}

/// A law, with nothing to run: of two limits that are told as such no value meets both, and none of its type one that is
/// told alone; comparisons ask for the limits that stand for them, and with the literal first for them turned.
pub fn no_value_meets_both()
    ensures none { NoValueMeetsBoth }
    ensures least { NoValueLiesBelowTheLeast }
    ensures comparisons { ComparisonsAskForLimits }
    ensures turned { TurnedLimitsAskTheSame }
{}
