//! A review that is split over several by its people: what the parts tell is what the whole would.
#![tactic(auto)]

mod law;
mod rows;
mod sums;

pub use law::{
    new_reviews_are_a_split, parts_tell_the_changes, parts_tell_the_whole, splits_are_kept,
    splits_have_a_whole, wholes_accept,
};
pub use rows::{merge_by_rule, merge_who};
pub use sums::{sum_changes, sum_counts};
