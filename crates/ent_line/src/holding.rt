//! What the service answers of what is held.

ghost use Rattle.std.specs.Option.{option_copied};
ghost use Rattle.ent_line.specs.Commands.{attributes_told, documents_told};
ghost use Rattle.ent_line.specs.proofs_only.Replying.{Tells};

use crate::reply::Reply;
use crate::service::Service;
use ent_eval::Evaluates;
use ent_telling::{attributes_text, documents_text};
use ent_wire::Refusal;
use std::alloc::AllocError;

impl<E: Evaluates> Service<E> {
    /// `attributes`.
    #[tactic(auto, unfolding(crate::specs::Commands::attributes_told, ent_telling::specs::Attributes::attributes_text))]
    pub(crate) fn attributes(
        &self,
        category: Option<&str>,
        entity: &str,
    ) -> Result<Reply, AllocError>
        ensures { Tells
            (λ w. attributes_told w.state (option_copied category.entry) entity.now) self.now result }
    {
        let Some(category) = category else {
            return Ok(Reply::Refused(Refusal::Reserved));
        };
        let attributes = self.desk.review().pdp().attributes();
        let text = attributes_text(self.alloc, attributes, category, entity)?;
        Ok(Reply::Text(text))
    }

    /// `documents`.
    #[tactic(auto, unfolding(crate::specs::Commands::documents_told, ent_telling::specs::Documents::documents_text))]
    pub(crate) fn documents(&self, id: Option<&str>) -> Result<Reply, AllocError>
        ensures { Tells (λ w. documents_told w.state (option_copied id.entry)) self.now result }
    {
        let text = documents_text(self.alloc, self.desk.review().pdp(), id)?;
        Ok(Reply::Text(text))
    }
}
