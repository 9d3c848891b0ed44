//! Explanations: an answer beside why parts of it are Indeterminate, and the look-ups that it rests on.

ghost use Rattle.std.specs.Prelude.{[], ◌∷◌, ◌++◌, codes, decimal};
ghost use Rattle.json.specs.Token as token;
ghost use Rattle.ent_eval.specs.LooksOf.{held_by};
ghost use Rattle.ent_telling.specs.Causes.{causes_data, untold};
ghost use Rattle.ent_telling.specs.Facts.{facts_data};
ghost use Rattle.ent_json.specs.Text.{tokens_of};
ghost use Rattle.ent_table.specs.Names.{triple_of};
ghost use Rattle.ent_command.specs.Asked as asked;
ghost use Rattle.ent_line.specs.Cells.{cell_data};
ghost use Rattle.ent_line.specs.Commands.{cell_explained, request_explained};
ghost use Rattle.ent_line.specs.Explained.{answer_data, explained_reply};
ghost use Rattle.ent_line.specs.proofs_only.Replying.{Answers, Keeps, WorksFor};
ghost use Rattle.ent_line.specs.proofs_only.Writing.{Adds, Spells, Writes};

use crate::cell::{write_cell, write_decided, write_reason};
use crate::reply::Reply;
use crate::service::Service;
use ent_eval::{Answer, Cause, Evaluates, Explained, Pdp, Reads, Request};
use ent_finder::{Attributes, Policies};
use ent_json::{JsonText, JsonTree, write_count};
use ent_profile::{RequestFault, read_request, write_given_text};
use ent_telling::{untold, write_causes, write_facts};
use ent_wire::Refusal;
use std::alloc::{AllocError, Global};

/// Writes the answer to a request as a cell has it, without names.
fn write_answer(alloc: Global, out: &mut JsonText, answer: &Answer) -> Result<(), AllocError>
    ensures { Writes (answer_data answer.now) out.old out.new result }
{
    out.begin_object()?;
    out.key("advice")?;
    write_given_text(alloc, out, answer.advice.as_slice())?;
    write_decided(alloc, out, answer.decision, answer.obligations.as_slice())?;
    write_reason(out, answer.status, answer.why.as_slice())
}

/// Begins the reply, to where its answer stands.
fn begin_reply(out: &mut JsonText) -> Result<(), AllocError>
    ensures { Adds
        (token.begin_object ∷ token.key (codes "explain")
        ∷ token.begin_object ∷ token.key (codes "answer") ∷ [])
        out.old out.new result }
{
    out.begin_object()?;
    out.key("explain")?;
    out.begin_object()?;
    out.key("answer")
}

/// Ends the reply, behind its answer.
fn end_reply<A: Attributes, P: Policies>(
    alloc: Global,
    out: &mut JsonText,
    pdp: &Pdp<A, P>,
    whole: bool,
    causes: &[Cause],
    reads: Reads,
) -> Result<(), AllocError>
    ensures { Adds
        (token.key (codes "causes") ∷ (tokens_of (causes_data causes.now)
        ++ token.key (codes "facts") ∷ (tokens_of (facts_data whole (held_by pdp.now) reads)
        ++ token.key (codes "more") ∷ token.number (decimal (untold causes.now))
        ∷ token.end_object ∷ token.end_object ∷ [])))
        out.old out.new result }
{
    out.key("causes")?;
    write_causes(alloc, out, causes)?;
    out.key("facts")?;
    write_facts(alloc, out, pdp, whole, reads)?;
    write_count(out, "more", untold(causes))?;
    out.end_object()?;
    out.end_object()
}

/// The text of the reply to `explain` of a cell.
fn cell_explained_text<A: Attributes, P: Policies>(
    alloc: Global,
    pdp: &Pdp<A, P>,
    whole: bool,
    who: (&str, &str, &str),
    explained: Explained,
) -> Result<String, AllocError>
    ensures { Spells (explained_reply
        (cell_data (triple_of who.entry.0.now who.entry.1.now who.entry.2.now, explained.answer))
        explained.causes
        (facts_data whole (held_by pdp.now) explained.reads)) result }
{
    let (person, action, resource) = who;
    let Explained {
        answer,
        reads,
        causes,
    } = explained;
    let mut out = JsonText::with_room(alloc)?;
    begin_reply(&mut out)?;
    write_cell(alloc, &mut out, person, action, resource, &answer)?;
    end_reply(alloc, &mut out, pdp, whole, causes.as_slice(), reads)?;
    Ok(out.into_string())
}

/// The text of the reply to `explain` of a request.
fn answer_explained_text<A: Attributes, P: Policies>(
    alloc: Global,
    pdp: &Pdp<A, P>,
    whole: bool,
    explained: Explained,
) -> Result<String, AllocError>
    ensures { Spells (explained_reply
        (answer_data explained.answer)
        explained.causes
        (facts_data whole (held_by pdp.now) explained.reads)) result }
{
    let Explained {
        answer,
        reads,
        causes,
    } = explained;
    let mut out = JsonText::with_room(alloc)?;
    begin_reply(&mut out)?;
    write_answer(alloc, &mut out, &answer)?;
    end_reply(alloc, &mut out, pdp, whole, causes.as_slice(), reads)?;
    Ok(out.into_string())
}

impl<E: Evaluates> Service<E> {
    /// `explain` of a cell.
    #[tactic(auto, using(crate::proofs::KeptLemmas::ask_keeps), unfolding(crate::specs::Commands::cell_explained))]
    pub(crate) fn explain_cell(
        &mut self,
        whole: bool,
        person: &str,
        action: &str,
        resource: &str,
    ) -> Result<Reply, AllocError>
        ensures reply { Answers
            (λ w. cell_explained whole w.state (triple_of person.now action.now resource.now))
            self.old self.new result }
        ensures work { WorksFor
            (asked.explain_cell whole (triple_of person.now action.now resource.now))
            self.old self.new result }
        ensures kept { Keeps self.old self.new }
    {
        if !self.are_listed(Some(person), Some(action), Some(resource)) {
            return Ok(Reply::Refused(Refusal::NotThere));
        }
        let request = Request::listed(self.alloc, person, action, resource)?;
        let explained = self.desk.explain(&request)?;
        let pdp = self.desk.review().pdp();
        let who = (person, action, resource);
        let text = cell_explained_text(self.alloc, pdp, whole, who, explained)?;
        Ok(Reply::Text(text))
    }

    /// `explain` of a request.
    #[tactic(auto, using(crate::proofs::KeptLemmas::ask_keeps), unfolding(crate::specs::Commands::request_explained))]
    pub(crate) fn explain<J: JsonTree>(
        &mut self,
        whole: bool,
        json: &J,
    ) -> Result<Reply, AllocError>
        ensures reply { Answers (λ w. request_explained whole w.state (J.content json.now))
            self.old self.new result }
        ensures work { WorksFor (asked.explain whole (J.content json.now))
            self.old self.new result }
        ensures kept { Keeps self.old self.new }
    {
        match read_request(self.alloc, json) {
            Ok(request) => {
                let explained = self.desk.explain(&request)?;
                let pdp = self.desk.review().pdp();
                let text = answer_explained_text(self.alloc, pdp, whole, explained)?;
                Ok(Reply::Text(text))
            }
            Err(RequestFault::Bad) => Ok(Reply::Refused(Refusal::Request)),
            Err(RequestFault::Memory) => Err(AllocError),
        }
    }
}
