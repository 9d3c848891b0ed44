//! The law of a comparison: what is told of the replies to `table` of two services is the difference of their tables.
#![tactic(auto)]

mod law;

pub use law::{
    comparisons_tell_tables, differences_are_told, nothing_is_told_of_the_same, tables_are_replies,
};
