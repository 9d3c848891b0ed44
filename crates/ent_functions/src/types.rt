//! Types of arguments and results.

ghost use Rattle.std.specs.Prelude.{◌≡◌};

use crate::function::Function;
use ent_values::DataType;

/// The type of an argument or of a result: one value, a bag, or a function (for the functions of higher order alone).
#[derive(Clone, Copy, Debug, PartialEq, Eq)]
pub enum ArgType {
    /// One value of that type.
    One(DataType),
    /// A bag of values of that type.
    Many(DataType),
    /// That function.
    Fun(Function),
}
