//! What expressions and conditions come to.

use ent_functions::Arg;
use ent_request::Status;

/// What an expression comes to (section 7.4).
#[derive(Drop)]
pub enum Evaluated {
    /// A value, a bag, or a function as an argument.
    Known(Arg),
    Indeterminate(Status),
}

/// What a condition comes to (section 7.9).
#[derive(Clone, Copy, PartialEq, Eq)]
pub enum Truth {
    True,
    False,
    Indeterminate(Status),
}
