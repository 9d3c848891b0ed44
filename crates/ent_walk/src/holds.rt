//! Whether functions are True of a literal and values.

ghost use Rattle.std.specs.Prelude.{◌≡◌, IfOk};
ghost use Rattle.std.specs.List.{list_any};
ghost use Rattle.ent_walk.specs.Target.{is_true};
ghost use Rattle.ent_walk.specs.proofs_only.Typed.{Tests, TestsEach};
ghost use Rattle.ent_values.specs.Types.{datatype_of};

use ent_functions::{Arg, Fault, Function, apply};
use ent_values::Value;
use std::alloc::{AllocError, Global};

// Whether a function is True of a literal and one of the values.
pub(crate) fn holds_of_one(
    alloc: Global,
    function: Function,
    literal: &Value,
    values: &[Value],
) -> Result<bool, AllocError>
    requires { TestsEach function literal.now values.now }
    ensures { IfOk result (λ b. b ≡ list_any (is_true function literal.now) values.now) }
{
    for value in values {
        if is_true(alloc, function, literal, value)? {
            return Ok(true);
        }
    }
    Ok(false)
}

// Whether a function is True of two values. Nothing is copied to find whether they are equal.
#[tactic(auto, unfolding(ent_functions::specs::Applied::applied, ent_functions::specs::Applied::first_order))]
pub(crate) fn is_true(
    alloc: Global,
    function: Function,
    first: &Value,
    second: &Value,
) -> Result<bool, AllocError>
    requires { Tests function first.now (datatype_of second.now) }
    ensures { IfOk result (λ b. b ≡ is_true function first.now second.now) }
{
    match function {
        Function::Equal(_) => Ok(first == second),
        _ => comes_true(alloc, function, first, second),
    }
}

fn comes_true(
    alloc: Global,
    function: Function,
    first: &Value,
    second: &Value,
) -> Result<bool, AllocError>
    requires { Tests function first.now (datatype_of second.now) }
    ensures { IfOk result (λ b. b ≡ is_true function first.now second.now) }
{
    let arguments = [Arg::One(first.copy(alloc)?), Arg::One(second.copy(alloc)?)];
    match apply(alloc, function, &arguments) {
        Ok(Arg::One(Value::Boolean(boolean))) => Ok(boolean),
        Err(Fault::Memory) => Err(AllocError),
        _ => Ok(false),
    }
}
