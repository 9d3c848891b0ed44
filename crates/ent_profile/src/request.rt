//! Requests as JSON.

ghost use Rattle.std.specs.Prelude.{◌≡◌, bytes_eq, map};
ghost use Rattle.std.specs.List.{list_any};
ghost use Rattle.ent_policy.specs.Limits.{has_double};
ghost use Rattle.ent_profile.specs.Asks.{asks, has_request_form, request_of};
ghost use Rattle.ent_profile.specs.Reading.{Reads};

use crate::category::categories;
use crate::fault::RequestFault;
use crate::form::is_unset;
use ent_json::{JsonTree, text_or_absent};
use ent_request::{Category, Request};
use std::alloc::Global;

/// Whether the value has the keys of a request, and no wish that isn't met.
#[tactic(auto, unfolding(crate::specs::Asks::has_request_form, crate::specs::Categories::short_name))]
fn has_request_form<J: JsonTree>(object: &J) -> bool
    ensures { result ≡ has_request_form (J.content object.now) }
{
    let keys = [
        "AccessSubject",
        "Action",
        "Resource",
        "Environment",
        "RecipientSubject",
        "IntermediarySubject",
        "Codebase",
        "RequestingMachine",
        "Category",
        "CombinedDecision",
        "ReturnPolicyIdList",
        "XPathVersion",
    ];
    object.has_only(&keys)
        && is_unset(object, "CombinedDecision")
        && is_unset(object, "ReturnPolicyIdList")
        && text_or_absent(object, "XPathVersion")
}

/// Whether one of the categories has that id.
fn is_among(categories: &[Category], id: &str) -> bool
    ensures { result ≡ list_any (λ c. bytes_eq id.now c.id) categories.now }
{
    categories.iter().any(|category| id == category.id.as_str())
}

/// Whether a category stands twice.
fn has_double(categories: &[Category]) -> bool
    ensures { result ≡ has_double (map (λ c. c.id) categories.now) }
{
    let mut rest = categories;
    while let [first, others @ ..] = rest {
        if is_among(others, first.id.as_str()) {
            return true;
        }
        rest = others;
    }
    false
}

/// A request.
#[tactic(auto, unfolding(crate::specs::Asks::request_of))]
fn request<J: JsonTree>(alloc: Global, object: &J) -> Result<Request, RequestFault>
    ensures { Reads result (request_of (J.content object.now)) }
{
    if !has_request_form(object) {
        return Err(RequestFault::Bad);
    }
    let categories = categories(alloc, object)?;
    if has_double(categories.as_slice()) {
        return Err(RequestFault::Bad);
    }
    Ok(Request { categories })
}

/// The request that a JSON value asks for (section 5.42).
///
/// The value is an object `{"Request": {..}}`. Categories stand at the short names AccessSubject, Action, Resource,
/// Environment, RecipientSubject, IntermediarySubject, Codebase and RequestingMachine, each at most once, and at
/// Category, where each has its CategoryId, a URI or a short name. No category stands twice. A category has any number
/// of attributes with an AttributeId, a Value or a list of them, and perhaps a DataType, an Issuer and IncludeInResult.
/// Lists have at most 256 members; ids, CategoryId and Issuer have 1 to 256 bytes.
///
/// # Errors
///
/// [`RequestFault::Bad`] if the value asks for no request: also where it has any other key, or asks for a combined
/// decision or for a list of policies. [`RequestFault::Memory`] if memory runs out.
///
/// Its contract is an equation but for memory.
#[tactic(auto, unfolding(crate::specs::Asks::asks))]
pub fn read_request<J: JsonTree>(alloc: Global, json: &J) -> Result<Request, RequestFault>
    ensures { Reads result (asks (J.content json.now)) }
{
    if !json.has_only(&["Request"]) {
        return Err(RequestFault::Bad);
    }
    let body = json.get("Request").ok_or(RequestFault::Bad)?;
    request(alloc, body)
}
