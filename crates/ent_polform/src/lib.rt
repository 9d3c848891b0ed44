//! The JSON form of policies: which document, or which reference, a JSON value spells, and how a document is written.
#![tactic(auto)]

mod expression;
mod form;
mod given;
mod law;
mod objects;
mod reference;
mod target;
mod text_documents;
mod text_expressions;
mod text_given;
mod text_targets;
mod text_values;
mod value;
mod written_documents;
mod written_values;

pub use expression::{expression as raw_expression, named as raw_named};
pub use form::{
    child as raw_child, definition as raw_definition, policy as raw_policy, raw_document,
    read_document, rule as raw_rule, set as raw_set,
};
pub use given::{assignment as raw_assignment, given_expression as raw_given};
pub use law::{
    documents_are_shallow, documents_read_back, levels_are_read_alike, references_read_back,
    values_read_back,
};
pub use reference::{read_reference, reference as raw_reference};
pub use target::{
    all_of as raw_all_of, any_of as raw_any_of, one_match as raw_match, target as raw_target,
};
pub use text_documents::{write_document_text, write_reference_text};
pub use text_values::write_value_text;
pub use value::read_value;
pub use written_documents::write_document;
pub use written_values::write_value;
