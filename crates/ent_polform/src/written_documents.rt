//! Documents, as they are written.

ghost use Rattle.std.specs.Prelude.{◌≡◌, ◌≤◌, IfOk, string_bytes};
ghost use Rattle.serde_json.specs.Data.{depth};
ghost use Rattle.serde_json.specs.View.{view};
ghost use Rattle.serde_json.specs.Written.{compact_text};
ghost use Rattle.ent_polform.specs.ReadBack.{ReadsBack};
ghost use Rattle.ent_polform.specs.Written.{written};

use crate::text_documents::write_document_text;
use ent_json::JsonText;
use ent_policy::Document;
use serde_json::Value as Json;
use std::alloc::{AllocError, Global};

/// The text of a document.
fn document_text(alloc: Global, document: &Document) -> Result<String, AllocError>
    ensures { IfOk result (λ s. string_bytes s ≡ compact_text (written document.now)) }
{
    let mut out = JsonText::with_room(alloc)?;
    write_document_text(alloc, &mut out, document)?;
    Ok(out.into_string())
}

/// The JSON that a document is written as, in the form that [`crate::read_document`] reads. Absent parts and empty
/// lists are left out. A data type is written as its full URI, that of a value too; MustBePresent is always written; an
/// integer is a number, a boolean is a boolean, and every other value, a version and a version pattern are their
/// written texts. Reading it gives the document again, unless it holds a duration of more than 999,999,999 whole years.
/// Arrays and objects nest at most 100 deep.
///
/// It is what the text of [`write_document_text`] is read as.
///
/// # Errors
///
/// `AllocError` if memory runs out.
///
/// Its contract is an equation but for memory.
pub fn write_document(alloc: Global, document: &Document) -> Result<Json, AllocError>
    ensures written { IfOk result (λ v. view v ≡ written document.now) }
    ensures read_back { IfOk result (λ v. ReadsBack document.now (view v)) }
    ensures shallow { IfOk result (λ v. depth (view v) ≤ 100) }
{
    // What the type says of a document is said of its tree.
    let _tree = document.tree();
    let text = document_text(alloc, document)?;
    match Json::from_str(alloc, text.as_str()) {
        Ok(json) => Ok(json),
        // The text is JSON, so memory alone can be wanting.
        Err(_) => Err(AllocError),
    }
}
