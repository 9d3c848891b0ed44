//! The rules that gave decisions.

ghost use Rattle.std.specs.Prelude.{◌≡◌, OnOk, codes, map, option_and_then, option_map};
ghost use Rattle.std.specs.List.{fold};
ghost use Rattle.serde_json.specs.Find.{get};
ghost use Rattle.serde_json.specs.View.{members_view, view};
ghost use Rattle.ent_json.specs.Line.{data_of};
ghost use Rattle.script_coverage.specs.Seen.{document_of, with_cell, with_entry, with_one, with_reply, with_text};

use ent_json::text_at;
use script_compare::{members_at, names_text, text_of, value_of};
use serde_json::{Map, Value, put};
use std::alloc::{AllocError, Global};

/// Of an entry of a why list the document to which its rule belongs: the last on the path.
fn document_of(entry: &Value) -> &Value
    ensures { view result.now ≡ document_of (view entry.now) }
{
    let path = members_at(entry, "path");
    let mut last = entry;
    for document in path {
        last = document;
    }
    last
}

/// Puts the rule of an entry among others, if it has one: where a default decided it has none.
fn see_entry(alloc: Global, entry: &Value, seen: &mut Map<String, Value>) -> Result<(), AllocError>
    ensures { OnOk result (members_view seen.new.entries
        ≡ with_entry (members_view seen.old.entries) (view entry.now)) }
{
    let Some(rule) = text_at(entry, "rule") else {
        return Ok(());
    };
    let document = document_of(entry);
    let key = names_text(alloc, text_of(document, 1), text_of(document, 2), rule)?;
    put(seen, alloc, key.as_str(), Value::Null)
}

/// Puts those of a cell among others.
fn see_cell(alloc: Global, cell: &Value, seen: &mut Map<String, Value>) -> Result<(), AllocError>
    ensures { OnOk result (members_view seen.new.entries
        ≡ with_cell (members_view seen.old.entries) (view cell.now)) }
{
    let entries = members_at(cell, "why");
    for entry in entries {
        see_entry(alloc, entry, seen)?;
    }
    Ok(())
}

/// Puts those of cells among others.
fn see_cells(
    alloc: Global,
    cells: &[Value],
    seen: &mut Map<String, Value>,
) -> Result<(), AllocError>
    ensures { OnOk result (members_view seen.new.entries
        ≡ fold with_cell (members_view seen.old.entries) (map view cells.now)) }
{
    for cell in cells {
        see_cell(alloc, cell, seen)?;
    }
    Ok(())
}

/// Puts those of a cell among others, if there is one.
fn see_one(
    alloc: Global,
    cell: Option<&Value>,
    seen: &mut Map<String, Value>,
) -> Result<(), AllocError>
    ensures { OnOk result (members_view seen.new.entries
        ≡ with_one (members_view seen.old.entries) (option_map (λ v. view v.now) cell.entry)) }
{
    match cell {
        Some(cell) => see_cell(alloc, cell, seen),
        None => Ok(()),
    }
}

/// The answer that a reply to `explain` tells, if it is one.
fn answer_in(reply: &Value) -> Option<&Value>
    ensures { option_map (λ v. view v.now) result
        ≡ option_and_then (get (codes "answer")) (get (codes "explain") (view reply.now)) }
{
    reply.get("explain")?.get("answer")
}

/// Puts those that a reply tells among others.
fn see_value(alloc: Global, reply: &Value, seen: &mut Map<String, Value>) -> Result<(), AllocError>
    ensures { OnOk result (members_view seen.new.entries
        ≡ with_reply (members_view seen.old.entries) (view reply.now)) }
{
    see_cells(alloc, members_at(reply, "table"), seen)?;
    see_cells(alloc, members_at(reply, "cells"), seen)?;
    see_one(alloc, reply.get("cell"), seen)?;
    see_one(alloc, answer_in(reply), seen)?;
    Ok(())
}

/// Puts the rules that gave decisions among others, as the text of a reply tells them: to `table` and `cells` those of each
/// cell, to `cell` those of one, to `explain` those of its answer; of any other none.
///
/// # Errors
///
/// `AllocError` if memory runs out.
///
/// Its contract is an equation but for memory.
pub fn see_reply(
    alloc: Global,
    text: &[u8],
    seen: &mut Map<String, Value>,
) -> Result<(), AllocError>
    ensures { OnOk result (members_view seen.new.entries
        ≡ with_text (members_view seen.old.entries) (data_of text.now)) }
{
    match value_of(alloc, text)? {
        Some(reply) => see_value(alloc, &reply, seen),
        None => Ok(()),
    }
}
