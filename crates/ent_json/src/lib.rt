//! JSON values as readers see them, whichever of the kit's crates read them; members that are put into them; and JSON
//! that is written straight into its text.
#![tactic(auto)]

mod borrowed;
mod bytes;
mod keyed;
mod line;
mod members;
mod number;
mod objects;
mod owned;
mod text;
mod tree;
mod whole;

pub use keyed::{write_count, write_optional, write_text};
pub use line::read_json;
pub use members::{only_member, put_text};
pub use objects::{filled_list_at, flag_at, list_at, text_at, text_or_absent};
pub use text::JsonText;
pub use tree::JsonTree;
