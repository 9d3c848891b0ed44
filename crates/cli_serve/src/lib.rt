//! `review serve`: a service that holds nothing before its first line, over standard input or over lines at hand,
//! within the limits that the command line gives; and `review lines`.
#![tactic(auto)]

mod limiting;
mod replying;
mod running;
mod sentences;
mod status;
mod streams;
mod watching;

pub use limiting::given_limits;
pub use replying::{MODULES, few, replies_to};
pub use running::serve_from;
pub use status::lines_status;
pub use streams::{serve_input, write_lines};
