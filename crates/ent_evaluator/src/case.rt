//! Cases: what was found for listed requests, and which answer it gave.

use ent_request::Answer;
use ent_values::{Items, Shared};
use memo_bags::Finding;

/// An answer, the numbers of the questions that were asked for it, what those among them found that are about the names
/// of the request, and whether a part of the evaluation failed by itself. Over the same look-ups all others find the
/// same for each listed request.
#[derive(Drop)]
pub(crate) struct Case {
    pub(crate) found: Items<Finding>,
    pub(crate) asked: Shared<Items<u32>>,
    pub(crate) answer: Shared<Answer>,
    pub(crate) failed: bool,
}
