//! The review table: the answer to each listed request, kept right over every edit.
#![tactic(auto)]

mod ask;
mod attributes;
mod cells;
mod change;
mod column;
mod edit;
mod explain;
mod judged;
mod law;
mod limits;
mod lists;
mod look;
mod name_list;
mod names;
mod parts;
mod policies;
mod reading;
mod requests;
mod review;
mod review_parts;
mod since;
mod table;

pub use attributes::{MOST_VALUES, is_reserved};
pub use cells::Cells;
pub use column::Column;
pub use edit::{Accepted, Edit, EditFault, List};
pub use ent_cells::Who;
pub use judged::Judged;
pub use law::no_name_is_twice;
pub use limits::Limits;
pub use review::{LAST_SERIAL, Review};
pub use since::Change;
