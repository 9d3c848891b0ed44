//! Arguments and results.

ghost use Rattle.ent_functions.specs.Same.{SameArgumentsAreEqual, SameFunctionsAreEqual, SameTypesAreEqual};

use crate::function::Function;
use ent_values::{Bag, Value};
use std::alloc::AllocError;
use thiserror::Error;

/// An argument of a function, or its result.
#[derive(Debug, PartialEq, Eq, Drop)]
pub enum Arg {
    /// One value.
    One(Value),
    /// A bag of values.
    Many(Bag),
    /// A function, as the first argument of `any-of` and `all-of` alone.
    Fun(Function),
}

/// Why a function has no result (appendix A.3). All but `Memory` are processing errors of the function.
#[derive(Clone, Copy, Debug, PartialEq, Eq, Error)]
pub enum Fault {
    /// A division by zero, or the rest of one.
    #[error("division by zero")]
    DivideByZero,
    /// An integer outside signed 64 bits.
    #[error("integer outside 64 bits")]
    Overflow,
    /// A bag without a value or with more than one, where one value is wanted.
    #[error("the bag has not exactly one value")]
    NotSingle,
    /// A date outside the years 1 to 9999.
    #[error("date outside the years 1 to 9999")]
    DateRange,
    /// Memory was refused.
    #[error("out of memory")]
    Memory,
}

impl From<AllocError> for Fault {
    ghost use Rattle.std.specs.Prelude.{◌≡◌};
    ghost use Rattle.ent_functions.specs.declared.arg.Fault.TheVariants.{Memory};

    ghost from_gives = { λ _ e. e ≡ Memory };

    fn from(_: AllocError) -> Fault {
        Fault::Memory
    }
}

/// A law, with nothing to run: `==` of two functions, of two types of arguments and of two arguments says whether they
/// are equal.
pub fn same_is_equal()
    ensures functions { SameFunctionsAreEqual }
    ensures types { SameTypesAreEqual }
    ensures arguments { SameArgumentsAreEqual }
{}
