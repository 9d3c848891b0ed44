//! Responses, written straight into a text.

ghost use Rattle.std.specs.Prelude.{◌≡◌, ◌++◌, IfOk, OnOk, map, string_bytes};
ghost use Rattle.serde_json.specs.Written.{compact_text};
ghost use Rattle.ent_json.specs.Text.{tokens_of};
ghost use Rattle.ent_json.specs.Members.{filled_list};
ghost use Rattle.ent_profile.specs.Response.{given_written, response, result_written, status_written};
ghost use Rattle.ent_json.specs.proofs_only.Keyed.{optional_tokens};

use crate::given_text::write_given_text;
use crate::included_text::write_categories;
use crate::response::{decision_word, status_uri};
use ent_json::JsonText;
use ent_request::{Answer, Given, Request, Status};
use std::alloc::{AllocError, Global};

/// Writes obligations or advice at a key, if there are some.
fn write_some_given(
    alloc: Global,
    out: &mut JsonText,
    key: &str,
    given: &[Given],
) -> Result<(), AllocError>
    ensures { OnOk result (out.new ≡ out.old ++ optional_tokens key.now (filled_list (map given_written given.now))) }
{
    if given.is_empty() {
        return Ok(());
    }
    out.key(key)?;
    write_given_text(alloc, out, given)
}

/// Writes a Status.
fn write_status(out: &mut JsonText, status: Status) -> Result<(), AllocError>
    ensures { OnOk result (out.new ≡ out.old ++ tokens_of (status_written status)) }
{
    out.raw("{\"StatusCode\":{\"Value\":")?;
    out.string(status_uri(status))?;
    out.end_object()?;
    out.end_object()
}

/// Writes a Result.
fn write_result(
    alloc: Global,
    out: &mut JsonText,
    answer: &Answer,
    request: &Request,
) -> Result<(), AllocError>
    ensures { OnOk result (out.new ≡ out.old ++ tokens_of (result_written answer.now request.now)) }
{
    out.begin_object()?;
    write_some_given(alloc, out, "AssociatedAdvice", answer.advice.as_slice())?;
    write_categories(alloc, out, request.categories.as_slice())?;
    out.raw("\"Decision\":")?;
    out.string(decision_word(answer.decision))?;
    write_some_given(alloc, out, "Obligations", answer.obligations.as_slice())?;
    out.raw("\"Status\":")?;
    write_status(out, answer.status)?;
    out.end_object()
}

/// Writes a response.
fn write_whole(
    alloc: Global,
    out: &mut JsonText,
    answer: &Answer,
    request: &Request,
) -> Result<(), AllocError>
    ensures { OnOk result (out.new ≡ out.old ++ tokens_of (response answer.now request.now)) }
{
    out.raw("{\"Response\":[")?;
    write_result(alloc, out, answer, request)?;
    out.end_array()?;
    out.end_object()
}

/// The text of the response that [`write_response`](crate::write_response) gives, without spaces. It is written
/// straight, so that no JSON value is built for it.
///
/// # Errors
///
/// `AllocError` if memory runs out.
///
/// Its contract is an equation but for memory.
pub fn write_response_text(
    alloc: Global,
    answer: &Answer,
    request: &Request,
) -> Result<String, AllocError>
    ensures { IfOk result (λ s. string_bytes s ≡ compact_text (response answer.now request.now)) }
{
    let mut out = JsonText::with_room(alloc)?;
    write_whole(alloc, &mut out, answer, request)?;
    Ok(out.into_string())
}
