//! What is held, as it is told: documents, the values of an entity, and what an answer rests on.
#![tactic(auto)]

mod attributes;
mod causes;
mod documents;
mod facts;
mod law;
mod members;
mod paths;

pub use attributes::attributes_text;
pub use causes::{untold, write_causes};
pub use documents::documents_text;
pub use facts::write_facts;
pub use law::equal_facts_give_equal_answers;
pub use paths::{status_text, write_path, write_rule};
