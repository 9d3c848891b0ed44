//! The cells of a table in list order, each with its request, its answer and what the answer rests on, in groups by
//! what is asked: so that an edit answers anew exactly the cells that read what it changes, and tells their old
//! answers.
#![tactic(auto)]

mod added;
mod asked;
mod blocks;
mod cell;
mod confirm;
mod evaluate;
mod live;
mod old;
mod phases;
mod sharing;
mod steps;
mod store;

pub use blocks::Blocks;
pub use ent_eval::Who;
pub use live::Live;
