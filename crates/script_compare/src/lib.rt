//! What differs between two tables, as the replies to `table` tell them.
#![tactic(auto)]

mod changes;
mod column;
mod gains;
mod lines;
mod report;
mod showing;
mod table;
mod writing;

pub use column::{members_at, text_of};
pub use gains::{Way, has};
pub use report::{difference, is_nothing};
pub use showing::{push_shown, shown};
pub use table::{names_text, value_of};
pub use writing::markdown;
