//! What is told of the documents that are held.

ghost use Rattle.std.specs.Prelude.{◌≡◌, ◌<◌, IfOk, OnOk, Some, None, if◌then◌else◌, ◌++◌, codes, is_some};
ghost use Rattle.std.specs.Prelude.{length, map, option_copied, string_bytes};
ghost use Rattle.ent_eval.specs.LooksOf.{held_by};
ghost use Rattle.ent_finder.specs.Entry.{entry_of};
ghost use Rattle.ent_finder.specs.Slots.{held, module_at};
ghost use Rattle.ent_json.specs.Text.{tokens_of};
ghost use Rattle.ent_polform.specs.Written.{written};
ghost use Rattle.ent_json.specs.proofs_only.Keyed.{optional_tokens};
ghost use Rattle.lint_reach.specs.Reached.{has_place};
ghost use Rattle.ent_telling.specs.Documents.{document_data, documents, documents_data, documents_text, module_documents};
ghost use Rattle.ent_telling.specs.proofs_only.Walk.{each_tokens, is_asked, slot_data};

use crate::members::{begin_list, end_list, write_module};
use ent_eval::Pdp;
use ent_finder::{Attributes, DocSlot, Policies};
use ent_json::{JsonText, write_text};
use ent_polform::write_document_text;
use ent_policy::{DocKey, Document};
use lint_reach::{DocPlace, Reached, reached_places};
use std::alloc::{AllocError, Global};

/// Whether a document is asked for, by its id, or since all are.
fn is_asked(id: Option<&str>, key: &DocKey) -> bool
    ensures { result ≡ is_asked (option_copied id.entry) key.now }
{
    match id {
        None => true,
        Some(id) => key.id.as_str() == id,
    }
}

/// Writes a document at its key, if it is asked for.
pub(crate) fn write_whole(
    alloc: Global,
    out: &mut JsonText,
    document: &Document,
    whole: bool,
) -> Result<(), AllocError>
    ensures { OnOk result (out.new
        ≡ out.old ++ optional_tokens (codes "document") (if whole then Some (written document.now) else None)) }
{
    if !whole {
        return Ok(());
    }
    out.key("document")?;
    write_document_text(alloc, out, document)
}

/// Writes what is told of a document of the module of that number.
fn write_document(
    alloc: Global,
    out: &mut JsonText,
    reached: &Reached,
    whole: bool,
    place: &DocPlace,
    document: &Document,
) -> Result<(), AllocError>
    ensures { OnOk result (out.new ≡ out.old
        ++ tokens_of (document_data (λ p. has_place p reached.now) whole
        (place.now.number, place.now.key, document.now))) }
{
    let version = place.key.version.text(alloc)?;
    out.begin_object()?;
    write_whole(alloc, out, document, whole)?;
    write_text(out, "id", place.key.id.as_str())?;
    write_text(out, "kind", place.key.kind.word())?;
    write_module(out, place.number)?;
    out.key("reached")?;
    out.boolean(reached.has(place))?;
    write_text(out, "version", version.as_str())?;
    out.end_object()
}

/// Writes what is told of the document in a slot of the module of that number, if there is one and it is asked for.
fn write_slot(
    alloc: Global,
    out: &mut JsonText,
    reached: &Reached,
    id: Option<&str>,
    number: usize,
    slot: &DocSlot,
) -> Result<(), AllocError>
    ensures { OnOk result (out.new ≡ out.old ++ each_tokens
        (slot_data (λ p. has_place p reached.now) (option_copied id.entry) number (entry_of slot.now))) }
{
    let Some(document) = &slot.document else {
        return Ok(());
    };
    if !is_asked(id, &slot.key) {
        return Ok(());
    }
    let place = DocPlace {
        number,
        key: slot.key.copy(alloc)?,
    };
    write_document(alloc, out, reached, id.is_some(), &place, document)
}

/// Writes what is told of the documents of the module of that number, in the order of their keys.
fn write_slots<P: Policies>(
    alloc: Global,
    out: &mut JsonText,
    policies: &P,
    reached: &Reached,
    id: Option<&str>,
    number: usize,
) -> Result<(), AllocError>
    requires { number < length (P.slots policies.now) }
    ensures { OnOk result (out.new ≡ out.old ++ each_tokens (map
        (document_data (λ p. has_place p reached.now) (is_some (option_copied id.entry)))
        (module_documents (option_copied id.entry) (number, held (module_at (P.slots policies.now) number))))) }
{
    // Each slot has an index.
    let _ = policies.slot_at(number, 0);
    for index in 0..usize::MAX {
        let Some(slot) = policies.slot_at(number, index) else {
            return Ok(());
        };
        write_slot(alloc, out, reached, id, number, slot)?;
    }
    Ok(())
}

/// Writes what is told of all documents, by module and then in the order of their keys.
fn write_modules<P: Policies>(
    alloc: Global,
    out: &mut JsonText,
    policies: &P,
    reached: &Reached,
    id: Option<&str>,
) -> Result<(), AllocError>
    ensures { OnOk result (out.new ≡ out.old ++ each_tokens (map
        (document_data (λ p. has_place p reached.now) (is_some (option_copied id.entry)))
        (documents (option_copied id.entry) (map held (P.slots policies.now))))) }
{
    for number in 0..policies.len() {
        write_slots(alloc, out, policies, reached, id, number)?;
    }
    Ok(())
}

/// Writes the reply.
fn write_documents<A: Attributes, P: Policies>(
    alloc: Global,
    out: &mut JsonText,
    pdp: &Pdp<A, P>,
    id: Option<&str>,
) -> Result<(), AllocError>
    ensures { OnOk result (out.new ≡ out.old
        ++ tokens_of (documents_data (held_by pdp.now) (option_copied id.entry))) }
{
    let reached = reached_places(alloc, pdp.policies(), pdp.root())?;
    begin_list(out, "documents")?;
    write_modules(alloc, out, pdp.policies(), &reached, id)?;
    end_list(out)
}

/// The text of the reply that tells the documents that are held, by module, then by kind, id and version: an object for
/// each, which says whether the root leads to it. Where an id is given it tells those of that id alone, and each with
/// the document itself, as a dump has it.
///
/// # Errors
///
/// `AllocError` if memory runs out.
///
/// Its contract is an equation but for memory.
pub fn documents_text<A: Attributes, P: Policies>(
    alloc: Global,
    pdp: &Pdp<A, P>,
    id: Option<&str>,
) -> Result<String, AllocError>
    ensures { IfOk result (λ s. string_bytes s
        ≡ documents_text (held_by pdp.now) (option_copied id.entry)) }
{
    let mut out = JsonText::with_room(alloc)?;
    write_documents(alloc, &mut out, pdp, id)?;
    Ok(out.into_string())
}
