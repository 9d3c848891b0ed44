//! What a document asks for, or compares with, that isn't declared.

use crate::attribute::DeclaredAttribute;
use ent_values::{Text, Value};

/// A designator of a document that isn't declared: its place, as a JSON pointer (RFC 6901), and what it asks for. Or a
/// literal that isn't among the values which are listed for what a designator asks for, with its value.
#[derive(Drop)]
pub struct Undeclared {
    pub pointer: Text,
    pub asked: Option<DeclaredAttribute>,
    /// The value of the literal, if it is one.
    pub value: Option<Value>,
}
