//! A case by what came of tests.

use ent_request::Answer;
use ent_values::{Items, Shared};

/// The numbers of the outcomes of tests, in their order, with the answer, the numbers of the questions that are asked
/// for it, each once, and whether a part of it failed by itself.
#[derive(Drop)]
pub struct ToldAnswer {
    pub way: Items<u32>,
    pub answer: Shared<Answer>,
    pub asked: Shared<Items<u32>>,
    pub failed: bool,
}
