//! Modules that hold documents or values of attributes, and the finders that ask them in their order.
#![tactic(auto)]

mod attribute_finder;
mod attribute_module;
mod attributes;
mod block;
mod blocks;
mod boxed;
mod boxed_attributes;
mod finder;
mod hints;
mod law;
mod law_of_keys;
mod law_of_rows;
mod list;
mod map_docs;
mod map_rows;
mod module;
mod passing;
mod policies;
mod row;
mod rows;
mod slot;
mod sole;

pub use attribute_finder::AttributeFinder;
pub use attribute_module::AttributeFinderModule;
pub use attributes::Attributes;
pub use finder::PolicyFinder;
pub use law::{
    first_module_answers, most_recent_is_latest, second_swap_undoes_first,
    swap_changes_one_document, swap_leaves_other_references,
};
pub use law_of_keys::{keys_order_by_field, same_is_equal};
pub use law_of_rows::{
    empty_rows_do_not_count, first_source_answers, issuer_names_one_row, second_swap_restores_rows,
    swap_changes_one_row, swap_leaves_other_keys,
};
pub use map_docs::MapDocs;
pub use map_rows::MapRows;
pub use module::PolicyFinderModule;
pub use policies::Policies;
pub use row::{AttrKey, Row, RowKey};
pub use slot::DocSlot;
pub use sole::either;
