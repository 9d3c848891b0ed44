//! Functions that need no copy of their arguments.

ghost use Rattle.std.specs.Prelude.{◌≡◌, [], ◌∷◌, IfOk, IfSome, Some};
ghost use Rattle.ent_values.specs.Types.{datatype_of};
ghost use Rattle.ent_functions.specs.Types.{boolean};
ghost use Rattle.ent_walk.specs.proofs_only.Typed.{HasType, Tests};
ghost use Rattle.ent_walk.specs.proofs_only.Uncopied.{ComesTo, IsOnly, IsSole, IsUncopied, any, member, told};
ghost use Rattle.ent_walk.specs.declared.evaluated.Evaluated.TheVariants.{Known};

use crate::evaluated::Evaluated;
use crate::holds::holds_of_one;
use ent_functions::{Arg, Element, Function};
use ent_policy::{Designator, Expression};
use ent_request::{LentBag, Request, Sought, Status, is_among, only_own};
use ent_values::Value;
use std::alloc::{AllocError, Global};

// A value that an expression comes to as it stands: a literal, or the only one of the request's own for a designator,
// which is asked for it.
#[derive(Clone, Copy)]
pub(crate) struct Sole<'a> {
    pub(crate) value: &'a Value,
    pub(crate) asked: Option<&'a Designator>,
}

// A function with its arguments, as they stand: of two values, of a value and the values of a designator, of these
// alone, of a function, a literal and these.
#[derive(Clone, Copy)]
pub(crate) enum Uncopied<'a> {
    Equal(Sole<'a>, Sole<'a>),
    IsIn(Sole<'a>, &'a Designator),
    OneAndOnly(Element, &'a Designator),
    AnyOf(Function, &'a Value, &'a Designator),
}

impl<'a> Uncopied<'a> {
    // The function with its arguments, if it is one of these.
    pub(crate) fn of(
        request: &'a Request,
        function: Function,
        arguments: &'a [Expression],
    ) -> Option<Uncopied<'a>>
        ensures { IfSome result (λ u. IsUncopied request.now function arguments.now u) }
    {
        match function {
            Function::Equal(_) => {
                let (first, second) = two(arguments)?;
                Some(Uncopied::Equal(Sole::of(request, first)?, Sole::of(request, second)?))
            }
            Function::IsIn(_) => {
                let (value, designator) = value_and_designator(arguments)?;
                Some(Uncopied::IsIn(Sole::of(request, value)?, designator))
            }
            Function::OneAndOnly(element) => {
                Some(Uncopied::OneAndOnly(element, one_designator(arguments)?))
            }
            Function::AnyOf => {
                let (test, literal, designator) = tested(arguments)?;
                Some(Uncopied::AnyOf(test, literal, designator))
            }
            _ => None,
        }
    }
}

impl<'a> Sole<'a> {
    // The value of an expression that is a literal, or one-and-only of a designator, if there is one.
    fn of(request: &'a Request, expression: &'a Expression) -> Option<Sole<'a>>
        ensures { IfSome result (λ s. IsSole request.now expression.now s) }
    {
        match expression {
            Expression::Value(value) => Some(Sole { value, asked: None }),
            Expression::Apply(function, arguments) => {
                Sole::of_only(request, *function, arguments.as_slice())
            }
            _ => None,
        }
    }

    // What one-and-only comes to, where its bag is a designator's and has one value.
    fn of_only(
        request: &'a Request,
        function: Function,
        arguments: &'a [Expression],
    ) -> Option<Sole<'a>>
        ensures { IfSome result (λ s. ComesTo request.now function arguments.now s) }
    {
        match function {
            Function::OneAndOnly(_) => Sole::of_own(request, one_designator(arguments)?),
            _ => None,
        }
    }

    // The only value of the request's own for a designator, if there is exactly one.
    fn of_own(request: &'a Request, designator: &'a Designator) -> Option<Sole<'a>>
        ensures { IfSome result (λ s. IsOnly request.now designator.now s) }
    {
        let value = only_own(request, &Sought::of(designator))?;
        Some(Sole {
            value,
            asked: Some(designator),
        })
    }
}

// A function, a literal and a designator, if these are the arguments.
fn tested(arguments: &[Expression]) -> Option<(Function, &Value, &Designator)>
    ensures { IfSome result (λ a. arguments.now
        ≡ Expression.Function a.0 ∷ Expression.Value a.1.now ∷ Expression.Designator a.2.now ∷ []) }
{
    match arguments {
        [
            Expression::Function(function),
            Expression::Value(literal),
            Expression::Designator(designator),
        ] => Some((*function, literal, designator)),
        _ => None,
    }
}

// The designator that is the only argument.
fn one_designator(arguments: &[Expression]) -> Option<&Designator>
    ensures { IfSome result (λ d. arguments.now ≡ Expression.Designator d.now ∷ []) }
{
    match arguments {
        [Expression::Designator(designator)] => Some(designator),
        _ => None,
    }
}

// An expression and a designator, if these are the arguments.
fn value_and_designator(arguments: &[Expression]) -> Option<(&Expression, &Designator)>
    ensures { IfSome result (λ a. arguments.now ≡ a.0.now ∷ Expression.Designator a.1.now ∷ []) }
{
    match arguments {
        [value, Expression::Designator(designator)] => Some((value, designator)),
        _ => None,
    }
}

// Two arguments, if there are two.
fn two(arguments: &[Expression]) -> Option<(&Expression, &Expression)>
    ensures { IfSome result (λ both. arguments.now ≡ both.0.now ∷ both.1.now ∷ []) }
{
    match arguments {
        [first, second] => Some((first, second)),
        _ => None,
    }
}

// Is-in of a value and of the values of a designator.
pub(crate) fn member(value: &Value, designator: &Designator, bag: &LentBag<'_>) -> Evaluated
    ensures value { result ≡ member value.now designator.now bag.now.values }
    ensures typed { HasType (Some boolean) result }
{
    told(designator, bag.values(), is_among(value, bag.values()))
}

// Whether a function is True of a literal and one of the values of a designator.
pub(crate) fn any(
    alloc: Global,
    function: Function,
    literal: &Value,
    designator: &Designator,
    bag: &LentBag<'_>,
) -> Result<Evaluated, AllocError>
    requires { Tests function literal.now bag.now.datatype }
    ensures value { IfOk result (λ v. v ≡ any function literal.now designator.now bag.now.values) }
    ensures typed { IfOk result (λ v. HasType (Some boolean) v) }
{
    let is_so = holds_of_one(alloc, function, literal, bag.values())?;
    Ok(told(designator, bag.values(), is_so))
}

// The only value of a bag, if there is exactly one.
pub(crate) fn only_in(alloc: Global, bag: &LentBag<'_>) -> Result<Option<Value>, AllocError>
    ensures value { IfOk result (λ o. IfSome o (λ v. bag.now.values ≡ v ∷ [])) }
    ensures typed { IfOk result (λ o. IfSome o (λ v. datatype_of v ≡ bag.now.datatype)) }
{
    match bag.values() {
        [only] => Ok(Some(only.copy(alloc)?)),
        _ => Ok(None),
    }
}

// What is told of a designator's values: nothing, where there are none and one must be present.
fn told(designator: &Designator, values: &[Value], is_so: bool) -> Evaluated
    ensures value { result ≡ told designator.now values.now is_so }
    ensures typed { HasType (Some boolean) result }
{
    if values.is_empty() && designator.must_be_present {
        return Evaluated::Indeterminate(Status::MissingAttribute);
    }
    truth(is_so)
}

// A boolean.
pub(crate) fn truth(is_so: bool) -> Evaluated
    ensures value { result ≡ Known (Arg.One (Value.Boolean is_so)) }
    ensures typed { HasType (Some boolean) result }
{
    Evaluated::Known(Arg::One(Value::Boolean(is_so)))
}
