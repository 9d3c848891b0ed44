//! Expressions and variables.

use crate::document::Designator;
use ent_functions::Function;
use ent_values::{Items, Text, Value};

/// What a condition computes (section 5.25).
#[derive(PartialEq, Eq, Drop)]
pub enum Expression {
    /// A literal (section 5.31).
    Value(Value),
    /// The bag of an attribute (section 5.29).
    Designator(Designator),
    /// The value of the policy's definition of that id (section 5.24).
    Variable(Text),
    /// A function of arguments (section 5.27).
    Apply(Function, Items<Expression>),
    /// A function as the first argument of one of higher order (section 5.28).
    Function(Function),
}

/// A name for an expression within one policy (section 5.23).
#[derive(PartialEq, Eq, Drop)]
pub struct VariableDefinition {
    pub id: Text,
    pub expression: Expression,
}
