//! What the service answers of its lists and its limits.

ghost use Rattle.std.specs.Prelude.{◌≡◌, ◌∷◌, codes, drop, take};
ghost use Rattle.json.specs.Token as token;
ghost use Rattle.serde_json.specs.Data as json;
ghost use Rattle.ent_json.specs.Text.{tokens_of};
ghost use Rattle.ent_line.specs.Cells.{list_data, reply_data};
ghost use Rattle.ent_line.specs.Commands.{limits_told, names_told};
ghost use Rattle.ent_line.specs.Listed.{limit_data, limits_data, limits_reply, names_reply};
ghost use Rattle.ent_line.specs.proofs_only.Replying.{Tells};
ghost use Rattle.ent_line.specs.proofs_only.Writing.{Adds, Spells, Writes};

use crate::reply::Reply;
use crate::reports::{begin_list, write_people};
use crate::service::Service;
use crate::standing::document_count;
use ent_eval::Evaluates;
use ent_json::{JsonText, write_count};
use ent_table::{List, Review};
use ent_values::Text;
use ent_wire::Refusal;
use std::alloc::{AllocError, Global};

/// Writes a limit at a key, and how much of it is taken.
fn write_limit(out: &mut JsonText, key: &str, most: usize, taken: u64) -> Result<(), AllocError>
    ensures { Adds (token.key key.now ∷ tokens_of (limit_data most taken))
        out.old out.new result }
{
    out.key(key)?;
    out.begin_object()?;
    write_count(out, "most", most as u64)?;
    write_count(out, "taken", taken)?;
    out.end_object()
}

/// Writes how large a review may grow.
fn write_limits<E: Evaluates>(out: &mut JsonText, review: &Review<E>) -> Result<(), AllocError>
    ensures { Writes (limits_data review.now.state) out.old out.new result }
{
    let limits = review.limits();
    let documents = document_count(review.pdp().policies())?;
    let actions = review.names(List::Actions).len();
    let people = review.names(List::People).len();
    let resources = review.names(List::Resources).len();
    out.begin_object()?;
    write_limit(out, "actions", limits.actions, actions as u64)?;
    write_limit(out, "cells", limits.cells, review.cell_count() as u64)?;
    write_limit(out, "documents", limits.documents, documents)?;
    write_limit(out, "people", limits.people, people as u64)?;
    write_limit(out, "resources", limits.resources, resources as u64)?;
    out.end_object()
}

/// Writes the reply to `limits`.
fn write_limits_reply<E: Evaluates>(
    out: &mut JsonText,
    review: &Review<E>,
) -> Result<(), AllocError>
    ensures { Writes (reply_data (codes "limits") (limits_data review.now.state))
        out.old out.new result }
{
    out.begin_object()?;
    out.key("limits")?;
    write_limits(out, review)?;
    out.end_object()
}

/// The text of the reply to `limits`.
fn limits_text<E: Evaluates>(alloc: Global, review: &Review<E>) -> Result<String, AllocError>
    ensures { Spells (limits_reply review.now.state) result }
{
    let mut out = JsonText::with_room(alloc)?;
    write_limits_reply(&mut out, review)?;
    Ok(out.into_string())
}

/// Writes the reply to `names`.
fn write_names_reply(out: &mut JsonText, names: &[Text]) -> Result<(), AllocError>
    ensures { Writes (reply_data (codes "names") (list_data json.string names.now))
        out.old out.new result }
{
    begin_list(out, "names")?;
    write_people(out, names)?;
    out.end_object()
}

/// The text of the reply to `names`.
fn names_text(alloc: Global, names: &[Text]) -> Result<String, AllocError>
    ensures { Spells (names_reply names.now) result }
{
    let mut out = JsonText::with_room(alloc)?;
    write_names_reply(&mut out, names)?;
    Ok(out.into_string())
}

/// At most so many of the names from a place on.
fn some_of(names: &[Text], from: u64, count: u64) -> &[Text]
    ensures { result.now ≡ take count (drop from names.now) }
{
    let from = (from as usize).min(names.len());
    let rest = &names[from..];
    let count = (count as usize).min(rest.len());
    &rest[..count]
}

impl<E: Evaluates> Service<E> {
    /// `limits`.
    #[tactic(auto, unfolding(crate::specs::Commands::limits_told))]
    pub(crate) fn limits(&self) -> Result<Reply, AllocError>
        ensures { Tells (λ w. limits_told w.state) self.now result }
    {
        let text = limits_text(self.alloc, self.desk.review())?;
        Ok(Reply::Text(text))
    }

    /// `names`.
    #[tactic(auto, unfolding(crate::specs::Commands::names_told))]
    pub(crate) fn names(
        &self,
        list: List,
        from: Option<u64>,
        count: Option<u64>,
    ) -> Result<Reply, AllocError>
        ensures { Tells (λ w. names_told w.state list from count) self.now result }
    {
        let (Some(from), Some(count)) = (from, count) else {
            return Ok(Reply::Refused(Refusal::BadValue));
        };
        let names = some_of(self.desk.review().names(list), from, count);
        let text = names_text(self.alloc, names)?;
        Ok(Reply::Text(text))
    }
}
