//! The lines of edits, each a text in the reply.

ghost use Rattle.std.specs.Prelude.{◌≡◌, [], ◌∷◌, ◌++◌, OnOk, Some};
ghost use Rattle.json.specs.Print.{print};
ghost use Rattle.json.specs.Token as token;
ghost use Rattle.serde_json.specs.Written.{compact_text};
ghost use Rattle.ent_table.specs.declared.edit.Edit.TheVariants.{AddName, AddPolicy, SetDay, SetMoment, SetRoot};
ghost use Rattle.ent_dump.specs.Dumped.{format_data};
ghost use Rattle.ent_dump.specs.proofs_only.Walk.{filled_edits, line_tokens, slot_edits};

use crate::commands::{
    write_day, write_document, write_format, write_moment, write_name, write_root, write_row,
};
use ent_finder::{DocSlot, Row};
use ent_json::JsonText;
use ent_policy::{Document, Reference};
use ent_table::List;
use ent_values::{Date, DateTime};
use std::alloc::{AllocError, Global};

/// Writes the text of a line.
fn write_line(out: &mut JsonText, line: JsonText) -> Result<(), AllocError>
    ensures { OnOk result (out.new ≡ out.old ++ token.string (print line) ∷ []) }
{
    let text = line.into_string();
    out.string(text.as_str())
}

/// Writes the line of the command `format`.
pub(crate) fn write_format_line(
    alloc: Global,
    out: &mut JsonText,
    version: u64,
) -> Result<(), AllocError>
    ensures { OnOk result (out.new ≡ out.old ++ token.string (compact_text (format_data version)) ∷ []) }
{
    let mut line = JsonText::with_room(alloc)?;
    write_format(&mut line, version)?;
    write_line(out, line)
}

/// Writes the line that puts a document into the module of that number.
fn write_document_line(
    alloc: Global,
    out: &mut JsonText,
    number: usize,
    document: &Document,
) -> Result<(), AllocError>
    ensures { OnOk result (out.new ≡ out.old ++ line_tokens (AddPolicy number document.now ∷ [])) }
{
    let mut line = JsonText::with_room(alloc)?;
    write_document(alloc, &mut line, number, document)?;
    write_line(out, line)
}

/// Writes the line that puts the document of a slot into the module of that number, unless the slot is empty.
pub(crate) fn write_slot_line(
    alloc: Global,
    out: &mut JsonText,
    number: usize,
    slot: &DocSlot,
) -> Result<(), AllocError>
    ensures { OnOk result (out.new ≡ out.old ++ line_tokens (slot_edits number slot.now.document)) }
{
    match &slot.document {
        None => Ok(()),
        Some(document) => write_document_line(alloc, out, number, document),
    }
}

/// Writes the line that gives a row of the module of that number its values, unless it has none.
pub(crate) fn write_row_line(
    alloc: Global,
    out: &mut JsonText,
    number: usize,
    row: &Row,
) -> Result<(), AllocError>
    ensures { OnOk result (out.new ≡ out.old ++ line_tokens (filled_edits number row.now.key row.now.values)) }
{
    let values = row.values.as_slice();
    if values.is_empty() {
        return Ok(());
    }
    let mut line = JsonText::with_room(alloc)?;
    write_row(alloc, &mut line, number, &row.key, values)?;
    write_line(out, line)
}

/// Writes the line that sets the day.
pub(crate) fn write_day_line(alloc: Global, out: &mut JsonText, day: Date) -> Result<(), AllocError>
    ensures { OnOk result (out.new ≡ out.old ++ line_tokens (SetDay (Some day) ∷ [])) }
{
    let mut line = JsonText::with_room(alloc)?;
    write_day(alloc, &mut line, day)?;
    write_line(out, line)
}

/// Writes the line that sets the moment.
pub(crate) fn write_moment_line(
    alloc: Global,
    out: &mut JsonText,
    moment: DateTime,
) -> Result<(), AllocError>
    ensures { OnOk result (out.new ≡ out.old ++ line_tokens (SetMoment (Some moment) ∷ [])) }
{
    let mut line = JsonText::with_room(alloc)?;
    write_moment(alloc, &mut line, moment)?;
    write_line(out, line)
}

/// Writes the line that sets the root.
pub(crate) fn write_root_line(
    alloc: Global,
    out: &mut JsonText,
    root: &Reference,
) -> Result<(), AllocError>
    ensures { OnOk result (out.new ≡ out.old ++ line_tokens (SetRoot (Some root.now) ∷ [])) }
{
    let mut line = JsonText::with_room(alloc)?;
    write_root(alloc, &mut line, root)?;
    write_line(out, line)
}

/// Writes the line that puts a name into a list.
pub(crate) fn write_name_line(
    alloc: Global,
    out: &mut JsonText,
    list: List,
    name: &str,
) -> Result<(), AllocError>
    ensures { OnOk result (out.new ≡ out.old ++ line_tokens (AddName list name.now ∷ [])) }
{
    let mut line = JsonText::with_room(alloc)?;
    write_name(&mut line, list, name)?;
    write_line(out, line)
}
