//! What stands, in numbers: the reply to `state`.

ghost use Rattle.std.specs.Prelude.{◌≡◌, ◌<◌, [], ◌∷◌, IfOk, codes, decimal, filter, length, map};
ghost use Rattle.std.specs.FinMap.{len};
ghost use Rattle.json.specs.Token as token;
ghost use Rattle.serde_json.specs.Data as json;
ghost use Rattle.ent_finder.specs.RowEntry.{row_entry};
ghost use Rattle.ent_finder.specs.Rows.{filled_source, is_filled, source_at};
ghost use Rattle.ent_finder.specs.Slots.{document_count, held};
ghost use Rattle.ent_json.specs.Members.{only_member};
ghost use Rattle.ent_json.specs.Text.{tokens_of};
ghost use Rattle.ent_dump.specs.Edits.{written_root};
ghost use Rattle.ent_line.specs.Commands.{state_told};
ghost use Rattle.ent_line.specs.Cells.{reply_data};
ghost use Rattle.ent_line.specs.Standing.{environment_data, mark_data, state_data, state_reply};
ghost use Rattle.ent_line.specs.proofs_only.Standing.{marked_from, row_count};
ghost use Rattle.ent_line.specs.proofs_only.Replying.{Tells};
ghost use Rattle.ent_line.specs.proofs_only.Writing.{Adds, Spells, Writes, WritesEach};

use crate::reply::Reply;
use crate::service::Service;
use ent_eval::{Environment, Evaluates};
use ent_finder::{Attributes, Policies, Row};
use ent_json::{JsonText, write_count, write_text};
use ent_polform::write_reference_text;
use ent_policy::Reference;
use ent_report::Desk;
use ent_table::List;
use ent_values::Value;
use std::alloc::{AllocError, Global};

/// How many documents are held. There is no memory for more than the type can count.
pub(crate) fn document_count<P: Policies>(policies: &P) -> Result<u64, AllocError>
    ensures { IfOk result (λ n. n ≡ document_count (map held (P.slots policies.now))) }
{
    let count = policies.document_count();
    if count > u64::MAX as u128 {
        return Err(AllocError);
    }
    Ok(count as u64)
}

/// One for a row that has a value, none for an empty one.
fn filled(row: &Row) -> usize
    ensures { result ≡ length (filter (λ e. is_filled e.1) (row_entry row.now ∷ [])) }
{
    if row.values.as_slice().is_empty() {
        0
    } else {
        1
    }
}

/// How many rows of the module of that number have a value.
fn rows_in<A: Attributes>(attributes: &A, number: usize) -> usize
    requires { number < length (A.sources attributes.now) }
    ensures { result ≡ len (filled_source (source_at (A.sources attributes.now) number)).rows }
{
    let mut count = 0;
    let mut index = 0;
    while let Some(row) = attributes.row_at(number, index) {
        index += 1;
        count += filled(row);
    }
    count
}

/// How many rows have a value, in all modules. There is no memory for more than the type can count.
fn row_count<A: Attributes>(attributes: &A) -> Result<u64, AllocError>
    ensures { IfOk result (λ n. n ≡ row_count (map filled_source (A.sources attributes.now))) }
{
    let mut count: u64 = 0;
    for number in 0..attributes.len() {
        let rows = rows_in(attributes, number) as u64;
        if rows > u64::MAX - count {
            return Err(AllocError);
        }
        count += rows;
    }
    Ok(count)
}

/// Writes an object with one text.
fn write_only(out: &mut JsonText, key: &str, text: &str) -> Result<(), AllocError>
    ensures { Writes (only_member key.now (json.string text.now)) out.old out.new result }
{
    out.begin_object()?;
    write_text(out, key, text)?;
    out.end_object()
}

/// Writes what is known of the time, as a dump has it.
#[tactic(auto, unfolding(ent_values::specs::Writing::text_of))]
fn write_environment(
    alloc: Global,
    out: &mut JsonText,
    environment: Environment,
) -> Result<(), AllocError>
    ensures { Writes (environment_data environment) out.old out.new result }
{
    match environment {
        Environment::Empty => out.null(),
        Environment::Day(day) => {
            let text = Value::Date(day).text(alloc)?;
            write_only(out, "day", text.as_str())
        }
        Environment::Moment(moment) => {
            let text = Value::DateTime(moment).text(alloc)?;
            write_only(out, "moment", text.as_str())
        }
    }
}

/// Writes the root, null for none.
fn write_root(alloc: Global, out: &mut JsonText, root: &Option<Reference>) -> Result<(), AllocError>
    ensures { Writes (written_root root.now) out.old out.new result }
{
    match root {
        None => out.null(),
        Some(root) => write_reference_text(alloc, out, root),
    }
}

/// Writes the mark of a session.
fn write_mark(out: &mut JsonText, session: u64, serial: u64) -> Result<(), AllocError>
    ensures { Writes (mark_data (session, serial)) out.old out.new result }
{
    out.begin_object()?;
    write_count(out, "serial", serial)?;
    write_count(out, "session", session)?;
    out.end_object()
}

/// Writes the marks of the sessions that have one, to the end of their list.
fn write_marks(out: &mut JsonText, serials: &[Option<u64>]) -> Result<(), AllocError>
    ensures { WritesEach mark_data (marked_from 0 serials.now) out.old out.new result }
{
    for (session, serial) in serials.iter().enumerate() {
        if let Some(serial) = serial {
            write_mark(out, session as u64, *serial)?;
        }
    }
    out.end_array()
}

/// Begins with how many actions, cells and documents there are.
fn write_front(
    out: &mut JsonText,
    actions: usize,
    cells: usize,
    documents: u64,
) -> Result<(), AllocError>
    ensures { Adds
        (token.begin_object
        ∷ token.key (codes "actions") ∷ token.number (decimal actions)
        ∷ token.key (codes "cells") ∷ token.number (decimal cells)
        ∷ token.key (codes "documents") ∷ token.number (decimal documents) ∷ [])
        out.old out.new result }
{
    out.begin_object()?;
    write_count(out, "actions", actions as u64)?;
    write_count(out, "cells", cells as u64)?;
    write_count(out, "documents", documents)
}

/// Goes on with how many people and resources there are, and the root.
fn write_listed(
    alloc: Global,
    out: &mut JsonText,
    people: usize,
    resources: usize,
    root: &Option<Reference>,
) -> Result<(), AllocError>
    ensures { Adds
        (token.key (codes "people") ∷ token.number (decimal people)
        ∷ token.key (codes "resources") ∷ token.number (decimal resources)
        ∷ token.key (codes "root") ∷ tokens_of (written_root root.now))
        out.old out.new result }
{
    write_count(out, "people", people as u64)?;
    write_count(out, "resources", resources as u64)?;
    out.key("root")?;
    write_root(alloc, out, root)
}

/// Ends with how many rows there are and how many edits were accepted.
fn write_end(out: &mut JsonText, rows: u64, serial: u64) -> Result<(), AllocError>
    ensures { Adds
        (token.key (codes "rows") ∷ token.number (decimal rows)
        ∷ token.key (codes "serial") ∷ token.number (decimal serial) ∷ token.end_object ∷ [])
        out.old out.new result }
{
    write_count(out, "rows", rows)?;
    write_count(out, "serial", serial)?;
    out.end_object()
}

/// Writes what stands, in numbers.
fn write_state<E: Evaluates>(
    alloc: Global,
    out: &mut JsonText,
    desk: &Desk<E>,
) -> Result<(), AllocError>
    ensures { Writes (state_data desk.now.world) out.old out.new result }
{
    let review = desk.review();
    let pdp = review.pdp();
    let documents = document_count(pdp.policies())?;
    let rows = row_count(pdp.attributes())?;
    let actions = review.names(List::Actions).len();
    let people = review.names(List::People).len();
    let resources = review.names(List::Resources).len();
    write_front(out, actions, review.cell_count(), documents)?;
    out.key("environment")?;
    write_environment(alloc, out, pdp.environment())?;
    out.key("marks")?;
    out.begin_array()?;
    write_marks(out, desk.marks())?;
    write_listed(alloc, out, people, resources, pdp.root())?;
    write_end(out, rows, review.serial())
}

/// Writes the reply to `state`.
fn write_state_reply<E: Evaluates>(
    alloc: Global,
    out: &mut JsonText,
    desk: &Desk<E>,
) -> Result<(), AllocError>
    ensures { Writes (reply_data (codes "state") (state_data desk.now.world))
        out.old out.new result }
{
    out.begin_object()?;
    out.key("state")?;
    write_state(alloc, out, desk)?;
    out.end_object()
}

/// The text of the reply to `state`.
fn state_text<E: Evaluates>(alloc: Global, desk: &Desk<E>) -> Result<String, AllocError>
    ensures { Spells (state_reply desk.now.world) result }
{
    let mut out = JsonText::with_room(alloc)?;
    write_state_reply(alloc, &mut out, desk)?;
    Ok(out.into_string())
}

impl<E: Evaluates> Service<E> {
    /// `state`.
    #[tactic(auto, unfolding(crate::specs::Commands::state_told))]
    pub(crate) fn state(&self) -> Result<Reply, AllocError>
        ensures { Tells state_told self.now result }
    {
        let text = state_text(self.alloc, &self.desk)?;
        Ok(Reply::Text(text))
    }
}
