//! What is told of look-ups: each with what it gives.

ghost use Rattle.std.specs.Prelude.{◌≡◌, [], ◌∷◌, ◌++◌, OnOk, codes, map, option_map};
ghost use Rattle.json.specs.Token as token;
ghost use Rattle.serde_json.specs.Data as json;
ghost use Rattle.serde_json.specs.View.{items_of};
ghost use Rattle.ent_eval.specs.LooksOf.{held_by};
ghost use Rattle.ent_finder.specs.Finding.{resolved};
ghost use Rattle.ent_finder.specs.Looking.{looked};
ghost use Rattle.ent_finder.specs.Rows.{filled_source};
ghost use Rattle.ent_finder.specs.Slots.{held};
ghost use Rattle.ent_json.specs.Members.{only_member};
ghost use Rattle.ent_json.specs.Text.{tokens_of};
ghost use Rattle.ent_json.specs.proofs_only.Text.{items_tokens_of};
ghost use Rattle.ent_polform.specs.Written.{reference_written, value_written};
ghost use Rattle.ent_values.specs.Types.{uri_of};
ghost use Rattle.ent_telling.specs.Facts.{fact_data, facts_data, found_data, or_null, values_data};

use crate::attributes::{write_each_value, write_issuer};
use crate::documents::write_whole;
use crate::members::write_module;
use ent_eval::{Pdp, ReadKey, Reads};
use ent_finder::{AttrKey, Attributes, Policies};
use ent_json::{JsonText, write_text};
use ent_polform::{write_reference_text, write_value_text};
use ent_policy::{Document, Reference};
use ent_values::{Bag, Value};
use std::alloc::{AllocError, Global};

/// Writes the root, null for none.
fn write_root(alloc: Global, out: &mut JsonText, root: &Option<Reference>) -> Result<(), AllocError>
    ensures { OnOk result (out.new
        ≡ out.old ++ tokens_of (only_member (codes "root") (or_null reference_written root.now))) }
{
    out.begin_object()?;
    out.key("root")?;
    write_reference(alloc, out, root)?;
    out.end_object()
}

/// Writes a reference, null for none.
fn write_reference(
    alloc: Global,
    out: &mut JsonText,
    reference: &Option<Reference>,
) -> Result<(), AllocError>
    ensures { OnOk result (out.new ≡ out.old ++ tokens_of (or_null reference_written reference.now)) }
{
    match reference {
        None => out.null(),
        Some(reference) => write_reference_text(alloc, out, reference),
    }
}

/// Writes which document of the module of that number was found, with what it says if that is told.
fn write_document(
    alloc: Global,
    out: &mut JsonText,
    whole: bool,
    number: usize,
    document: &Document,
) -> Result<(), AllocError>
    ensures { OnOk result (out.new ≡ out.old ++ tokens_of (found_data whole (number, document.now))) }
{
    let key = document.key(alloc)?;
    let version = key.version.text(alloc)?;
    out.begin_object()?;
    write_whole(alloc, out, document, whole)?;
    write_text(out, "id", key.id.as_str())?;
    write_text(out, "kind", key.kind.word())?;
    write_module(out, number)?;
    write_text(out, "version", version.as_str())?;
    out.end_object()
}

/// Writes which document was found, null for none.
fn write_found(
    alloc: Global,
    out: &mut JsonText,
    whole: bool,
    found: Option<(usize, &Document)>,
) -> Result<(), AllocError>
    ensures { OnOk result (out.new ≡ out.old
        ++ tokens_of (or_null (found_data whole) (option_map (λ r. (r.0, r.1.now)) found.entry))) }
{
    match found {
        None => out.null(),
        Some((number, document)) => write_document(alloc, out, whole, number, document),
    }
}

/// Writes a reference with the document that it finds.
fn write_resolved<P: Policies>(
    alloc: Global,
    out: &mut JsonText,
    policies: &P,
    whole: bool,
    reference: &Reference,
) -> Result<(), AllocError>
    ensures { OnOk result (out.new ≡ out.old ++ tokens_of (json.object (
        json.member (codes "found") (or_null (found_data whole)
        (resolved reference.now (map held (P.slots policies.now))))
        (json.member (codes "reference") (reference_written reference.now)
        json.no_members)))) }
{
    out.begin_object()?;
    out.key("found")?;
    write_found(alloc, out, whole, policies.resolve(reference))?;
    out.key("reference")?;
    write_reference_text(alloc, out, reference)?;
    out.end_object()
}

/// Writes a key of attributes, and the values that it finds.
fn write_values(
    alloc: Global,
    out: &mut JsonText,
    key: &AttrKey,
    values: &[Value],
) -> Result<(), AllocError>
    ensures { OnOk result (out.new ≡ out.old ++ tokens_of (values_data key.now values.now)) }
{
    out.begin_object()?;
    write_text(out, "attribute", key.attribute.as_str())?;
    write_text(out, "category", key.category.as_str())?;
    write_text(out, "datatype", key.datatype.uri())?;
    write_text(out, "entity", key.entity.as_str())?;
    write_issuer(out, &key.issuer)?;
    out.key("values")?;
    out.begin_array()?;
    write_each_value(alloc, out, values)?;
    out.end_object()
}

/// Writes a key of attributes with the values that it finds.
fn write_looked<A: Attributes>(
    alloc: Global,
    out: &mut JsonText,
    attributes: &A,
    key: &AttrKey,
) -> Result<(), AllocError>
    ensures { OnOk result (out.new ≡ out.old
        ++ tokens_of (values_data key.now (looked key.now (map filled_source (A.sources attributes.now))))) }
{
    let mut bag = Bag::new(alloc, key.datatype);
    attributes.look(key, &mut bag)?;
    write_values(alloc, out, key, bag.values())
}

/// Writes a value, null for none.
fn write_value(alloc: Global, out: &mut JsonText, value: &Option<Value>) -> Result<(), AllocError>
    ensures { OnOk result (out.new ≡ out.old ++ tokens_of (or_null value_written value.now)) }
{
    match value {
        None => out.null(),
        Some(value) => write_value_text(alloc, out, value),
    }
}

/// Writes what is known of the time at its key, null for nothing.
fn write_known(
    alloc: Global,
    out: &mut JsonText,
    key: &str,
    value: Option<Value>,
) -> Result<(), AllocError>
    ensures { OnOk result (out.new ≡ out.old ++ tokens_of (only_member key.now (or_null value_written value))) }
{
    out.begin_object()?;
    out.key(key)?;
    write_value(alloc, out, &value)?;
    out.end_object()
}

/// Writes a look-up with what it gives.
fn write_fact<A: Attributes, P: Policies>(
    alloc: Global,
    out: &mut JsonText,
    pdp: &Pdp<A, P>,
    whole: bool,
    key: &ReadKey,
) -> Result<(), AllocError>
    ensures { OnOk result (out.new ≡ out.old
        ++ tokens_of (fact_data whole (held_by pdp.now) key.now)) }
{
    let environment = pdp.environment();
    match key {
        ReadKey::Root => write_root(alloc, out, pdp.root()),
        ReadKey::Ref(reference) => write_resolved(alloc, out, pdp.policies(), whole, reference),
        ReadKey::Attr(key) => write_looked(alloc, out, pdp.attributes(), key),
        ReadKey::CurrentDate => {
            write_known(alloc, out, "date", environment.date().map(Value::Date))
        }
        ReadKey::CurrentTime => {
            write_known(alloc, out, "time", environment.time().map(Value::Time))
        }
        ReadKey::CurrentDateTime => {
            let moment = environment.date_time().map(Value::DateTime);
            write_known(alloc, out, "dateTime", moment)
        }
    }
}

/// Writes look-ups, to the end of their list.
fn write_each_fact<A: Attributes, P: Policies>(
    alloc: Global,
    out: &mut JsonText,
    pdp: &Pdp<A, P>,
    whole: bool,
    keys: &[ReadKey],
) -> Result<(), AllocError>
    ensures { OnOk result (out.new ≡ out.old
        ++ items_tokens_of (map (fact_data whole (held_by pdp.now)) keys.now)) }
{
    for key in keys {
        write_fact(alloc, out, pdp, whole, key)?;
    }
    out.end_array()
}

/// Writes the list of look-ups into a text, in the order of their keys: of each an object that says what was looked up
/// and what it gives. What finds nothing is told too, with null or without values. Of a document that is found its key
/// is told, or all that it says.
///
/// # Errors
///
/// `AllocError` if memory runs out; a front of the list may have been written.
///
/// Its contract is an equation but for memory.
pub fn write_facts<A: Attributes, P: Policies>(
    alloc: Global,
    out: &mut JsonText,
    pdp: &Pdp<A, P>,
    whole: bool,
    reads: Reads,
) -> Result<(), AllocError>
    ensures { OnOk result (out.new ≡ out.old
        ++ tokens_of (facts_data whole (held_by pdp.now) reads)) }
{
    let keys = reads.into_items(alloc)?;
    out.begin_array()?;
    write_each_fact(alloc, out, pdp, whole, keys.as_slice())
}
