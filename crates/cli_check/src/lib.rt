//! `review check`: what is said of policies in files, each by itself and together, and of lines that set values.
#![tactic(auto)]

mod checking;
mod declaring;
mod documents;
mod folders;
mod found;
mod known;
mod meant;
mod reading;
mod sentences;
mod set_lines;
mod sizes;
mod state_file;
mod status;

pub use checking::{FILE_LIMIT, FileFault, check_from};
pub use declaring::DeclaredFault;
pub use documents::check_documents;
pub use found::FaultCount;
pub use sentences::file_sentence;
