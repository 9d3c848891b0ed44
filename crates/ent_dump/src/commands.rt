//! The commands that make edits, written straight into a text.

ghost use Rattle.std.specs.Prelude.{◌≡◌, ◌++◌, OnOk, Some, codes, map};
ghost use Rattle.ent_json.specs.Text.{tokens_of};
ghost use Rattle.ent_json.specs.proofs_only.Text.{items_tokens_of};
ghost use Rattle.ent_polform.specs.Written.{value_written};
ghost use Rattle.ent_dump.specs.Dumped.{format_data};
ghost use Rattle.ent_dump.specs.Edits.{adding, day_data, document_data, moment_data, name_data, root_data, row_data};

use ent_finder::RowKey;
use ent_json::{JsonText, write_count, write_optional, write_text};
use ent_polform::{write_document_text, write_reference_text, write_value_text};
use ent_policy::{Document, Reference};
use ent_table::List;
use ent_values::{Date, DateTime, Value};
use std::alloc::{AllocError, Global};

/// Writes the command `format`.
pub(crate) fn write_format(out: &mut JsonText, version: u64) -> Result<(), AllocError>
    ensures { OnOk result (out.new ≡ out.old ++ tokens_of (format_data version)) }
{
    out.begin_object()?;
    write_text(out, "do", "format")?;
    write_count(out, "version", version)?;
    out.end_object()
}

/// Writes the command that puts a document into the module of that number.
pub(crate) fn write_document(
    alloc: Global,
    out: &mut JsonText,
    number: usize,
    document: &Document,
) -> Result<(), AllocError>
    ensures { OnOk result (out.new ≡ out.old ++ tokens_of (document_data (codes "policy.add") number document.now)) }
{
    out.begin_object()?;
    write_text(out, "do", "policy.add")?;
    out.key("document")?;
    write_document_text(alloc, out, document)?;
    write_count(out, "module", number as u64)?;
    out.end_object()
}

/// Writes values, to the end of their list.
fn write_each_value(alloc: Global, out: &mut JsonText, values: &[Value]) -> Result<(), AllocError>
    ensures { OnOk result (out.new ≡ out.old ++ items_tokens_of (map value_written values.now)) }
{
    for value in values {
        write_value_text(alloc, out, value)?;
    }
    out.end_array()
}

/// Writes the command that gives a row of the module of that number its values.
pub(crate) fn write_row(
    alloc: Global,
    out: &mut JsonText,
    number: usize,
    key: &RowKey,
    values: &[Value],
) -> Result<(), AllocError>
    ensures { OnOk result (out.new ≡ out.old ++ tokens_of (row_data number key.now values.now)) }
{
    out.begin_object()?;
    write_text(out, "attribute", key.attribute.as_str())?;
    write_text(out, "category", key.category.as_str())?;
    write_text(out, "do", "attr.set")?;
    write_text(out, "entity", key.entity.as_str())?;
    write_optional(out, "issuer", &key.issuer)?;
    write_count(out, "module", number as u64)?;
    write_text(out, "type", key.datatype.uri())?;
    out.key("values")?;
    out.begin_array()?;
    write_each_value(alloc, out, values)?;
    out.end_object()
}

/// Writes the command that sets the day.
pub(crate) fn write_day(alloc: Global, out: &mut JsonText, day: Date) -> Result<(), AllocError>
    ensures { OnOk result (out.new ≡ out.old ++ tokens_of (day_data (Some day))) }
{
    let text = Value::Date(day).text(alloc)?;
    out.begin_object()?;
    write_text(out, "day", text.as_str())?;
    write_text(out, "do", "day.set")?;
    out.end_object()
}

/// Writes the command that sets the moment.
pub(crate) fn write_moment(
    alloc: Global,
    out: &mut JsonText,
    moment: DateTime,
) -> Result<(), AllocError>
    ensures { OnOk result (out.new ≡ out.old ++ tokens_of (moment_data (Some moment))) }
{
    let text = Value::DateTime(moment).text(alloc)?;
    out.begin_object()?;
    write_text(out, "do", "moment.set")?;
    write_text(out, "moment", text.as_str())?;
    out.end_object()
}

/// Writes the command that sets the root.
pub(crate) fn write_root(
    alloc: Global,
    out: &mut JsonText,
    root: &Reference,
) -> Result<(), AllocError>
    ensures { OnOk result (out.new ≡ out.old ++ tokens_of (root_data (Some root.now))) }
{
    out.begin_object()?;
    write_text(out, "do", "root.set")?;
    out.key("reference")?;
    write_reference_text(alloc, out, root)?;
    out.end_object()
}

/// The command that puts a name into a list.
fn adding(list: List) -> &'static str
    ensures { result.now ≡ adding list }
{
    match list {
        List::People => "person.add",
        List::Actions => "action.add",
        List::Resources => "resource.add",
    }
}

/// Writes the command that puts a name into a list.
pub(crate) fn write_name(out: &mut JsonText, list: List, name: &str) -> Result<(), AllocError>
    ensures { OnOk result (out.new ≡ out.old ++ tokens_of (name_data (adding list) name.now)) }
{
    out.begin_object()?;
    write_text(out, "do", adding(list))?;
    write_text(out, "name", name)?;
    out.end_object()
}
