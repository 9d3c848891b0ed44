//! The JSON of cells.

ghost use Rattle.std.specs.Prelude.{[], ◌∷◌, ◌++◌, codes};
ghost use Rattle.json.specs.Token as token;
ghost use Rattle.ent_json.specs.Text.{tokens_of};
ghost use Rattle.ent_profile.specs.Response.{given_written, response};
ghost use Rattle.ent_table.specs.Left.{cells_left};
ghost use Rattle.ent_table.specs.Names.{triple_of};
ghost use Rattle.ent_telling.specs.Paths.{status_text};
ghost use Rattle.ent_line.specs.Cells.{cell_data, entry_data, list_data, reply_data, cell_reply, table_reply};
ghost use Rattle.ent_command.specs.Wanted.{decision_text};
ghost use Rattle.ent_line.specs.proofs_only.Writing.{Adds, Spells, Writes, WritesEach};

use ent_combine::Outcome;
use ent_command::decision_text;
use ent_eval::{Answer, Evaluates, Given, Request, Status, WhyEntry};
use ent_json::JsonText;
use ent_profile::{write_given_text, write_response_text};
use ent_table::Cells;
use ent_telling::{status_text, write_path, write_rule};
use std::alloc::{AllocError, Global};

/// Writes a rule with the path to it.
fn write_entry(out: &mut JsonText, entry: &WhyEntry) -> Result<(), AllocError>
    ensures { Writes (entry_data entry.now) out.old out.new result }
{
    out.raw("{\"path\":")?;
    write_path(out, entry.path.get().as_slice())?;
    out.raw("\"rule\":")?;
    write_rule(out, &entry.rule)?;
    out.end_object()
}

/// Writes the rules that gave a decision, to the end of their list.
fn write_entries(out: &mut JsonText, entries: &[WhyEntry]) -> Result<(), AllocError>
    ensures { WritesEach entry_data entries.now out.old out.new result }
{
    for entry in entries {
        write_entry(out, entry)?;
    }
    out.end_array()
}

/// Writes the list of the rules that gave a decision.
fn write_why(out: &mut JsonText, why: &[WhyEntry]) -> Result<(), AllocError>
    ensures { Writes (list_data entry_data why.now) out.old out.new result }
{
    out.begin_array()?;
    write_entries(out, why)
}

/// Writes a decision at its key.
pub(crate) fn write_decision(out: &mut JsonText, decision: Outcome) -> Result<(), AllocError>
    ensures { Adds (token.key (codes "decision") ∷ token.string (decision_text decision) ∷ [])
        out.old out.new result }
{
    out.raw("\"decision\":")?;
    out.string(decision_text(decision))
}

/// Writes a status at its key.
fn write_status(out: &mut JsonText, status: Status) -> Result<(), AllocError>
    ensures { Adds (token.key (codes "status") ∷ token.string (status_text status) ∷ [])
        out.old out.new result }
{
    out.raw("\"status\":")?;
    out.string(status_text(status))
}

/// Begins a cell: its action and its advice.
fn write_action(
    alloc: Global,
    out: &mut JsonText,
    action: &str,
    advice: &[Given],
) -> Result<(), AllocError>
    ensures { Adds
        (token.begin_object
        ∷ token.key (codes "action") ∷ token.string action.now
        ∷ token.key (codes "advice") ∷ tokens_of (list_data given_written advice.now))
        out.old out.new result }
{
    out.raw("{\"action\":")?;
    out.string(action)?;
    out.raw("\"advice\":")?;
    write_given_text(alloc, out, advice)
}

/// Goes on with the decision of a cell and its obligations.
pub(crate) fn write_decided(
    alloc: Global,
    out: &mut JsonText,
    decision: Outcome,
    obligations: &[Given],
) -> Result<(), AllocError>
    ensures { Adds
        (token.key (codes "decision") ∷ token.string (decision_text decision)
        ∷ token.key (codes "obligations") ∷ tokens_of (list_data given_written obligations.now))
        out.old out.new result }
{
    write_decision(out, decision)?;
    out.raw("\"obligations\":")?;
    write_given_text(alloc, out, obligations)
}

/// Goes on with the person and the resource of a cell.
pub(crate) fn write_names(
    out: &mut JsonText,
    person: &str,
    resource: &str,
) -> Result<(), AllocError>
    ensures { Adds
        (token.key (codes "person") ∷ token.string person.now
        ∷ token.key (codes "resource") ∷ token.string resource.now ∷ [])
        out.old out.new result }
{
    out.raw("\"person\":")?;
    out.string(person)?;
    out.raw("\"resource\":")?;
    out.string(resource)
}

/// Ends a cell with its status and the rules that gave its decision.
pub(crate) fn write_reason(
    out: &mut JsonText,
    status: Status,
    why: &[WhyEntry],
) -> Result<(), AllocError>
    ensures { Adds
        (token.key (codes "status") ∷ token.string (status_text status)
        ∷ token.key (codes "why") ∷ (tokens_of (list_data entry_data why.now)
        ++ token.end_object ∷ []))
        out.old out.new result }
{
    write_status(out, status)?;
    out.raw("\"why\":")?;
    write_why(out, why)?;
    out.end_object()
}

/// Writes a cell.
pub(crate) fn write_cell(
    alloc: Global,
    out: &mut JsonText,
    person: &str,
    action: &str,
    resource: &str,
    answer: &Answer,
) -> Result<(), AllocError>
    ensures { Writes (cell_data (triple_of person.now action.now resource.now, answer.now))
        out.old out.new result }
{
    write_action(alloc, out, action, answer.advice.as_slice())?;
    write_decided(alloc, out, answer.decision, answer.obligations.as_slice())?;
    write_names(out, person, resource)?;
    write_reason(out, answer.status, answer.why.as_slice())
}

/// Writes the cells that are left, to the end of their list.
fn write_cells<E: Evaluates>(
    alloc: Global,
    out: &mut JsonText,
    cells: Cells<'_, E>,
) -> Result<(), AllocError>
    ensures { WritesEach cell_data (cells_left cells.entry) out.old out.new result }
{
    for (person, action, resource, answer) in cells {
        write_cell(alloc, out, person, action, resource, answer)?;
    }
    out.end_array()
}

/// Writes the list of the cells that are left.
fn write_list<E: Evaluates>(
    alloc: Global,
    out: &mut JsonText,
    cells: Cells<'_, E>,
) -> Result<(), AllocError>
    ensures { Writes (list_data cell_data (cells_left cells.entry)) out.old out.new result }
{
    out.begin_array()?;
    write_cells(alloc, out, cells)
}

/// Writes the reply to `table`.
fn write_table<E: Evaluates>(
    alloc: Global,
    out: &mut JsonText,
    cells: Cells<'_, E>,
) -> Result<(), AllocError>
    ensures { Writes (reply_data (codes "table") (list_data cell_data (cells_left cells.entry)))
        out.old out.new result }
{
    out.raw("{\"table\":")?;
    write_list(alloc, out, cells)?;
    out.end_object()
}

/// Writes the reply to `cell`.
fn write_one_cell(
    alloc: Global,
    out: &mut JsonText,
    person: &str,
    action: &str,
    resource: &str,
    answer: &Answer,
) -> Result<(), AllocError>
    ensures { Writes
        (reply_data (codes "cell")
        (cell_data (triple_of person.now action.now resource.now, answer.now)))
        out.old out.new result }
{
    out.raw("{\"cell\":")?;
    write_cell(alloc, out, person, action, resource, answer)?;
    out.end_object()
}

/// The text of the reply to `table`.
pub(crate) fn table_text<E: Evaluates>(
    alloc: Global,
    cells: Cells<'_, E>,
) -> Result<String, AllocError>
    ensures { Spells (table_reply (cells_left cells.entry)) result }
{
    let mut out = JsonText::with_room(alloc)?;
    write_table(alloc, &mut out, cells)?;
    Ok(out.into_string())
}

/// The text of the reply to `cell`.
pub(crate) fn one_cell_text(
    alloc: Global,
    person: &str,
    action: &str,
    resource: &str,
    answer: &Answer,
) -> Result<String, AllocError>
    ensures { Spells (cell_reply
        (triple_of person.now action.now resource.now, answer.now)) result }
{
    let mut out = JsonText::with_room(alloc)?;
    write_one_cell(alloc, &mut out, person, action, resource, answer)?;
    Ok(out.into_string())
}

/// The text of the response to a request.
pub(crate) fn response_text(
    alloc: Global,
    answer: &Answer,
    request: &Request,
) -> Result<String, AllocError>
    ensures { Spells (response answer.now request.now) result }
{
    write_response_text(alloc, answer, request)
}
