//! Responses as JSON.

ghost use Rattle.std.specs.Prelude.{◌≡◌, IfOk};
ghost use Rattle.serde_json.specs.View.{view};
ghost use Rattle.ent_profile.specs.Response.{decision_word, response, status_uri};

use crate::given::read_again;
use crate::reals::{categories_are_real, given_are_real};
use crate::response_text::write_response_text;
use ent_combine::Outcome;
use ent_request::{Answer, Request, Status};
use serde_json::Value;
use std::alloc::{AllocError, Global};

/// The word of a decision.
pub(crate) fn decision_word(decision: Outcome) -> &'static str
    ensures { result.now ≡ decision_word decision }
{
    match decision {
        Outcome::Permit => "Permit",
        Outcome::Deny => "Deny",
        Outcome::NotApplicable => "NotApplicable",
        Outcome::Ind(_) => "Indeterminate",
    }
}

/// The URI of a status.
pub(crate) fn status_uri(status: Status) -> &'static str
    ensures { result.now ≡ status_uri status }
{
    match status {
        Status::Okay => "urn:oasis:names:tc:xacml:1.0:status:ok",
        Status::MissingAttribute => "urn:oasis:names:tc:xacml:1.0:status:missing-attribute",
        Status::ProcessingError => "urn:oasis:names:tc:xacml:1.0:status:processing-error",
    }
}

/// The response to a request that has that answer (section 5.47): an object `{"Response": [..]}` with one result.
///
/// The result has Decision and Status, and, where they aren't empty, Obligations, AssociatedAdvice and Category. An
/// Indeterminate doesn't tell what it could have been. Category has the attributes of the request that it wants in the
/// result, each category by its URI, in the order of the request. It is what the text of [`write_response_text`] is read
/// as.
///
/// # Errors
///
/// `AllocError` if memory runs out.
///
/// Its contract is an equation but for memory.
pub fn write_response(
    alloc: Global,
    answer: &Answer,
    request: &Request,
) -> Result<Value, AllocError>
    ensures { IfOk result (λ v. view v ≡ response answer.now request.now) }
{
    given_are_real(answer.advice.as_slice());
    given_are_real(answer.obligations.as_slice());
    categories_are_real(request.categories.as_slice());
    let text = write_response_text(alloc, answer, request)?;
    read_again(alloc, text.as_str())
}
