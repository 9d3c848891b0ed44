//! What is told inside of expressions.

ghost use Rattle.std.specs.Prelude.{◌≡◌, ◌++◌, OnOk, codes, map};
ghost use Rattle.lint_meaning.specs.Expressions.{condition_told, inside};
ghost use Rattle.lint_meaning.specs.Places.{numbered, told_if};
ghost use Rattle.lint_meaning.specs.Fixed.{is_fixed};
ghost use Rattle.lint_meaning.specs.declared.warning.Meaning.TheVariants as meaning;

use crate::bounds::tell_application;
use crate::fixed::is_fixed;
use crate::places::{at_key, member, put};
use crate::warning::{Meaning, Warning};
use ent_policy::Expression;
use ent_values::Items;
use std::alloc::{AllocError, Global};

/// Puts what is told inside of the expression at a place last.
#[cycle(inside)]
pub(crate) fn tell_inside(
    alloc: Global,
    pointer: &str,
    expression: &Expression,
    warnings: &mut Items<Warning>,
) -> Result<(), AllocError>
    ensures { OnOk result (warnings.new ≡ warnings.old ++ inside expression.now pointer.now) }
{
    match expression {
        Expression::Apply(function, arguments) => {
            let arguments = arguments.as_slice();
            tell_application(alloc, pointer, *function, arguments, warnings)?;
            tell_inside_each(alloc, pointer, arguments, warnings)?;
            Ok(())
        }
        _ => Ok(()),
    }
}

/// Puts what is told inside of the arguments of the application at a place last.
#[cycle(inside)]
fn tell_inside_each(
    alloc: Global,
    pointer: &str,
    arguments: &[Expression],
    warnings: &mut Items<Warning>,
) -> Result<(), AllocError>
    ensures { OnOk result (warnings.new ≡ warnings.old
        ++ numbered (codes "Apply/Arguments") 0 (map inside arguments.now) pointer.now) }
{
    for (number, argument) in arguments.iter().enumerate() {
        let place = member(alloc, pointer, "Apply/Arguments", number)?;
        tell_inside(alloc, place.as_str(), argument, warnings)?;
    }
    Ok(())
}

/// Puts that a condition asks for nothing last, if it does so.
fn tell_fixed(
    alloc: Global,
    pointer: &str,
    condition: &Expression,
    warnings: &mut Items<Warning>,
) -> Result<(), AllocError>
    ensures { OnOk result (warnings.new ≡ warnings.old
        ++ told_if (is_fixed condition.now) meaning.Fixed pointer.now) }
{
    if is_fixed(condition) {
        return put(alloc, pointer, Meaning::Fixed, warnings);
    }
    Ok(())
}

/// Puts what is told of the condition of the rule at a place last.
pub(crate) fn tell_condition(
    alloc: Global,
    pointer: &str,
    condition: &Option<Expression>,
    warnings: &mut Items<Warning>,
) -> Result<(), AllocError>
    ensures { OnOk result (warnings.new ≡ warnings.old ++ condition_told condition.now pointer.now) }
{
    let Some(condition) = condition else {
        return Ok(());
    };
    let place = at_key(alloc, pointer, "Condition")?;
    tell_fixed(alloc, place.as_str(), condition, warnings)?;
    tell_inside(alloc, place.as_str(), condition, warnings)
}
