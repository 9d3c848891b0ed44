//! What lines and replies have in common, whoever reads and writes them: how long a line may be, refusals by their
//! numbers, faults of reading and writing, and bytes into a writer.
#![tactic(auto)]

mod fault;
mod line;
mod output;
mod refusal;

pub use fault::ServeFault;
pub use line::LINE_LIMIT;
pub use output::{send, send_all};
pub use refusal::Refusal;
