//! Responses, and lists of obligations and advice, as JSON values, which no line asks for: each is what the text that
//! is written straight spells. And copies of answers.

use crate::documents::json_of;
use ent_combine::{IndKind, Outcome};
use ent_eval::{Answer, Assignment, Given, Request, Status};
use ent_json::JsonText;
use ent_profile::{
    read_request, write_given, write_given_text, write_response, write_response_text,
};
use ent_values::{DataType, Items, Text, Value};
use serde_json::Value as Json;
use std::alloc::{AllocError, Global};
use std::test::Fail;

/// What is assigned: the attribute, its category and its issuer, and the type and the text of the value.
type Assigned = (
    &'static str,
    Option<&'static str>,
    Option<&'static str>,
    DataType,
    &'static str,
);

/// Obligations or advice: the id of each, and what is assigned.
type ListedGiven = &'static [(&'static str, &'static [Assigned])];

/// Two obligations, one of them with values of four types.
const OBLIGATIONS: ListedGiven = &[
    (
        "log",
        &[
            (
                "a \"name\"",
                Some("c"),
                Some("desk"),
                DataType::Text,
                "plan",
            ),
            ("level", None, None, DataType::Integer, "-7"),
            ("cleared", None, None, DataType::Boolean, "false"),
            ("day", None, None, DataType::Date, "2025-02-28"),
        ],
    ),
    ("tell", &[]),
];

/// An advice without a value.
const ADVICE: ListedGiven = &[("note", &[])];

/// An advice with an empty one.
const REASON: ListedGiven = &[("why", &[("text", None, Some("desk"), DataType::Text, "")])];

/// A request whose attributes of no value, of one and of two are included.
const INCLUDING: &str =
    r#"{"Request":{"Action":{"Attribute":[{"AttributeId":"urn:oasis:names:tc:xacml:1.0:action:action-id",
       "Value":"read"},{"AttributeId":"none","Value":[],"IncludeInResult":true},{"AttributeId":"one","Issuer":"desk",
       "Value":true,"IncludeInResult":true},{"AttributeId":"two","Value":[1,2],"IncludeInResult":true}]},
       "Category":[{"CategoryId":"c","Attribute":{"AttributeId":"a","Value":"x"}},{"CategoryId":"d",
       "Attribute":{"AttributeId":"a","Value":"x","IncludeInResult":true}}]}}"#;

/// A request that asks for nothing.
const EMPTY: &str = r#"{"Request":{}}"#;

/// Requests, and answers to them: the decision, its status, and what goes with it.
const ANSWERED: &[(&str, Outcome, Status, ListedGiven, ListedGiven)] = &[
    (
        INCLUDING,
        Outcome::Permit,
        Status::Okay,
        OBLIGATIONS,
        ADVICE,
    ),
    (EMPTY, Outcome::Deny, Status::Okay, &[], REASON),
    (
        EMPTY,
        Outcome::Ind(IndKind::P),
        Status::MissingAttribute,
        &[],
        &[],
    ),
    (EMPTY, Outcome::NotApplicable, Status::Okay, &[], &[]),
];

/// A text that may be absent.
fn optional(alloc: Global, text: Option<&str>) -> Result<Option<Text>, AllocError> {
    match text {
        None => Ok(None),
        Some(text) => Ok(Some(Text::from_str(alloc, text)?)),
    }
}

/// One assignment.
fn assignment(alloc: Global, assigned: &Assigned) -> Result<Assignment, Fail> {
    let &(attribute, category, issuer, datatype, text) = assigned;
    Ok(Assignment {
        attribute: Text::from_str(alloc, attribute)?,
        category: optional(alloc, category)?,
        issuer: optional(alloc, issuer)?,
        value: Value::parse(alloc, datatype, text)?,
    })
}

/// All that is assigned.
fn assignments(alloc: Global, all: &[Assigned]) -> Result<Items<Assignment>, Fail> {
    let mut assignments = Items::new(alloc);
    for assigned in all {
        assignments.push(assignment(alloc, assigned)?)?;
    }
    Ok(assignments)
}

/// One obligation or advice.
fn one_given(alloc: Global, id: &str, all: &[Assigned]) -> Result<Given, Fail> {
    let assignments = assignments(alloc, all)?;
    let id = Text::from_str(alloc, id)?;
    Ok(Given { id, assignments })
}

/// The obligations or the advice.
fn given(alloc: Global, listed: ListedGiven) -> Result<Items<Given>, Fail> {
    let mut given = Items::new(alloc);
    for &(id, all) in listed {
        given.push(one_given(alloc, id, all)?)?;
    }
    Ok(given)
}

/// An answer for which no rule is told.
fn answer(
    alloc: Global,
    decision: Outcome,
    status: Status,
    obligations: ListedGiven,
    advice: ListedGiven,
) -> Result<Answer, Fail> {
    let obligations = given(alloc, obligations)?;
    let advice = given(alloc, advice)?;
    Ok(Answer {
        decision,
        status,
        why: Items::new(alloc),
        obligations,
        advice,
    })
}

/// The request that the text spells.
fn request(alloc: Global, text: &str) -> Result<Request, Fail> {
    let json = json_of(alloc, text)?;
    Ok(read_request(alloc, &json)?)
}

/// Whether a text spells that JSON.
fn spells(alloc: Global, text: &str, json: &Json) -> Result<bool, Fail> {
    Ok(json_of(alloc, text)? == *json)
}

/// Whether the response that is written straight spells the JSON of it.
fn is_response_alike(alloc: Global, answer: &Answer, request: &Request) -> Result<bool, Fail> {
    let json = write_response(alloc, answer, request)?;
    let text = write_response_text(alloc, answer, request)?;
    spells(alloc, text.as_str(), &json)
}

/// The text of a list of obligations or of advice that is written straight.
fn straight(alloc: Global, given: &[Given]) -> Result<String, AllocError> {
    let mut out = JsonText::new(alloc);
    write_given_text(alloc, &mut out, given)?;
    Ok(out.into_string())
}

/// Whether it spells the JSON of the list.
fn is_given_alike(alloc: Global, given: &[Given]) -> Result<bool, Fail> {
    let json = write_given(alloc, given)?;
    let text = straight(alloc, given)?;
    spells(alloc, text.as_str(), &json)
}

/// Whether the response to a request and the lists of its answer are written alike in both ways.
fn are_alike(alloc: Global, answer: &Answer, request: &Request) -> Result<bool, Fail> {
    let is_response = is_response_alike(alloc, answer, request)?;
    let are_obligations = is_given_alike(alloc, answer.obligations.as_slice())?;
    let is_advice = is_given_alike(alloc, answer.advice.as_slice())?;
    Ok(is_response && are_obligations && is_advice)
}

/// Whether an answer is equal to its copy.
fn is_copied(alloc: Global, answer: &Answer) -> Result<bool, AllocError> {
    Ok(answer.copy(alloc)? == *answer)
}

/// Whether the answer to the request that the text spells is equal to its copy, and is written alike in both ways.
fn is_written_alike(alloc: Global, text: &str, answer: &Answer) -> Result<bool, Fail> {
    let request = request(alloc, text)?;
    Ok(is_copied(alloc, answer)? && are_alike(alloc, answer, &request)?)
}

/// Whether that answer to the request that the text spells is.
fn is_answer_alike(
    alloc: Global,
    text: &str,
    decision: Outcome,
    status: Status,
    obligations: ListedGiven,
    advice: ListedGiven,
) -> Result<bool, Fail> {
    let answer = answer(alloc, decision, status, obligations, advice)?;
    is_written_alike(alloc, text, &answer)
}

#[test]
fn json_has_the_text_that_is_written_straight(rt: HostRuntime) -> Result<(), Fail> {
    for &(text, decision, status, obligations, advice) in ANSWERED {
        assert!(rt;
            is_answer_alike(rt.alloc(), text, decision, status, obligations, advice)?,
            "{decision:?} {text}"
        );
    }
    Ok(())
}
