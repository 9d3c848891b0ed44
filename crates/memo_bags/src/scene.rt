//! What a listed request is evaluated over.

use ent_request::Questions;
use ent_values::Text;
use std::alloc::Global;

/// What is held, the questions that have a number, and the names of a listed request.
#[derive(Drop)]
pub struct Scene<'a, L> {
    pub alloc: Global,
    pub held: &'a L,
    pub questions: &'a Questions,
    pub person: &'a Text,
    pub action: &'a Text,
    pub resource: &'a Text,
}
