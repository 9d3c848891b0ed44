//! What is told of the values that are held of an entity.

ghost use Rattle.std.specs.Prelude.{◌≡◌, ◌<◌, ◌∷◌, ◌++◌, IfOk, OnOk, codes, length, map, string_bytes};
ghost use Rattle.std.specs.Option.{option_map_or};
ghost use Rattle.serde_json.specs.Data as json;
ghost use Rattle.json.specs.Token as token;
ghost use Rattle.ent_finder.specs.RowEntry.{row_entry};
ghost use Rattle.ent_finder.specs.Rows.{filled_source, source_at};
ghost use Rattle.ent_json.specs.Text.{tokens_of};
ghost use Rattle.ent_json.specs.proofs_only.Text.{items_tokens_of};
ghost use Rattle.ent_polform.specs.Written.{value_written};
ghost use Rattle.ent_telling.specs.Attributes.{attributes_data, attributes_text, is_of_entity};
ghost use Rattle.ent_telling.specs.Attributes.{module_rows, row_data, rows_of};
ghost use Rattle.ent_telling.specs.proofs_only.Walk.{each_tokens, filled_data};

use crate::members::{begin_list, end_list, write_module};
use ent_finder::{Attributes, Row, RowKey};
use ent_json::{JsonText, write_text};
use ent_polform::write_value_text;
use ent_values::{Text, Value};
use std::alloc::{AllocError, Global};

/// Whether a row is of an entity of a category.
fn is_of_entity(category: &str, entity: &str, key: &RowKey) -> bool
    ensures { result ≡ is_of_entity category.now entity.now key.now }
{
    key.category.as_str() == category && key.entity.as_str() == entity
}

/// Writes an issuer, null for none.
pub(crate) fn write_issuer(out: &mut JsonText, issuer: &Option<Text>) -> Result<(), AllocError>
    ensures { OnOk result (out.new ≡ out.old
        ++ token.key (codes "issuer") ∷ tokens_of (option_map_or json.string issuer.now json.null)) }
{
    out.key("issuer")?;
    match issuer {
        None => out.null(),
        Some(issuer) => out.string(issuer.as_str()),
    }
}

/// Writes values, to the end of their list.
pub(crate) fn write_each_value(
    alloc: Global,
    out: &mut JsonText,
    values: &[Value],
) -> Result<(), AllocError>
    ensures { OnOk result (out.new ≡ out.old ++ items_tokens_of (map value_written values.now)) }
{
    for value in values {
        write_value_text(alloc, out, value)?;
    }
    out.end_array()
}

/// Writes a row of the module of that number.
fn write_row(
    alloc: Global,
    out: &mut JsonText,
    number: usize,
    key: &RowKey,
    values: &[Value],
) -> Result<(), AllocError>
    ensures { OnOk result (out.new ≡ out.old ++ tokens_of (row_data (number, key.now, values.now))) }
{
    out.begin_object()?;
    write_text(out, "attribute", key.attribute.as_str())?;
    write_text(out, "datatype", key.datatype.uri())?;
    write_issuer(out, &key.issuer)?;
    write_module(out, number)?;
    out.key("values")?;
    out.begin_array()?;
    write_each_value(alloc, out, values)?;
    out.end_object()
}

/// Writes a row of the module of that number, if it is of that entity and has values.
fn write_if_asked(
    alloc: Global,
    out: &mut JsonText,
    category: &str,
    entity: &str,
    number: usize,
    row: &Row,
) -> Result<(), AllocError>
    ensures { OnOk result (out.new
        ≡ out.old ++ each_tokens (filled_data category.now entity.now number (row_entry row.now))) }
{
    let values = row.values.as_slice();
    if values.is_empty() || !is_of_entity(category, entity, &row.key) {
        return Ok(());
    }
    write_row(alloc, out, number, &row.key, values)
}

/// Writes the rows of that entity in the module of that number, in the order of their keys.
fn write_source<A: Attributes>(
    alloc: Global,
    out: &mut JsonText,
    attributes: &A,
    category: &str,
    entity: &str,
    number: usize,
) -> Result<(), AllocError>
    requires { number < length (A.sources attributes.now) }
    ensures { OnOk result (out.new ≡ out.old ++ each_tokens (map row_data (module_rows category.now entity.now
        (number, filled_source (source_at (A.sources attributes.now) number))))) }
{
    // Each row has an index.
    let _ = attributes.row_at(number, 0);
    for index in 0..usize::MAX {
        let Some(row) = attributes.row_at(number, index) else {
            return Ok(());
        };
        write_if_asked(alloc, out, category, entity, number, row)?;
    }
    Ok(())
}

/// Writes the rows of that entity, by module and then in the order of their keys.
fn write_rows<A: Attributes>(
    alloc: Global,
    out: &mut JsonText,
    attributes: &A,
    category: &str,
    entity: &str,
) -> Result<(), AllocError>
    ensures { OnOk result (out.new ≡ out.old
        ++ each_tokens (map row_data
        (rows_of category.now entity.now (map filled_source (A.sources attributes.now))))) }
{
    for number in 0..attributes.len() {
        write_source(alloc, out, attributes, category, entity, number)?;
    }
    Ok(())
}

/// Writes the reply.
fn write_attributes<A: Attributes>(
    alloc: Global,
    out: &mut JsonText,
    attributes: &A,
    category: &str,
    entity: &str,
) -> Result<(), AllocError>
    ensures { OnOk result (out.new ≡ out.old
        ++ tokens_of (attributes_data (map filled_source (A.sources attributes.now)) category.now entity.now)) }
{
    begin_list(out, "attributes")?;
    write_rows(alloc, out, attributes, category, entity)?;
    end_list(out)
}

/// The text of the reply that tells the values that are held of an entity of a category: an object for each row that
/// has some, by module, then by attribute, type and issuer, which is null where the values have none.
///
/// # Errors
///
/// `AllocError` if memory runs out.
///
/// Its contract is an equation but for memory.
pub fn attributes_text<A: Attributes>(
    alloc: Global,
    attributes: &A,
    category: &str,
    entity: &str,
) -> Result<String, AllocError>
    ensures { IfOk result (λ s. string_bytes s
        ≡ attributes_text (map filled_source (A.sources attributes.now)) category.now entity.now) }
{
    let mut out = JsonText::with_room(alloc)?;
    write_attributes(alloc, &mut out, attributes, category, entity)?;
    Ok(out.into_string())
}
