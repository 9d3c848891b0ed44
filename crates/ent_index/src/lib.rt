//! Which cells of a table read which keys of look-ups.
#![tactic(auto)]

mod asked;
mod cells;
mod group;
mod groups;
mod index;
mod law;
mod names;
mod numbers;
mod readers;
mod roll;
mod wanted;
mod words;

pub use groups::Groups;
pub use index::Index;
pub use law::{the_cells_of_a_key_read_it, the_cells_of_a_key_rise};
pub use wanted::Wanted;
