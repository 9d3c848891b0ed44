//! The evaluator: it owns a decision point, the questions of listed requests, and a memory of their evaluations, which
//! is true of what is held.
#![tactic(auto)]

mod asking;
mod case;
mod cases;
mod evaluator;
mod exchange;
mod front;
mod listed;
mod memory;
mod names;
mod parts;
mod plan;
mod shelf;
mod tests;
mod worth;

pub use evaluator::Evaluator;
pub use memory::Memory;
pub use parts::EvaluatorParts;
