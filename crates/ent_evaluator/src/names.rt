//! Requests that ask what the request of a cell asks.

ghost use Rattle.std.specs.Prelude.{◌≡◌, ◌∷◌, [], option_copied, option_map};
ghost use Rattle.ent_evaluator.specs.proofs_only.Named.{named_by, names_in, sole_text, text_alone};
ghost use Rattle.ent_evaluator.specs.proofs_only.Named.{text_in, text_of};

use ent_eval::{
    ACCESS_SUBJECT, ACTION, Attribute, Category, Names, RESOURCE, Request, id_attribute,
};
use ent_values::{DataType, Text, Value};

/// The names of which a request has the ids and nothing else. Whether an id is to stand in the result says nothing.
pub(crate) fn names_in(request: &Request) -> Option<Names<'_>>
    ensures { option_map named_by result ≡ names_in request.now.categories }
{
    match request.categories.as_slice() {
        [subject, action, resource] => named(subject, action, resource),
        _ => None,
    }
}

/// The same of its three categories.
fn named<'a>(
    subject: &'a Category,
    action: &'a Category,
    resource: &'a Category,
) -> Option<Names<'a>>
    ensures { option_map named_by result ≡ names_in (subject.now ∷ action.now ∷ resource.now ∷ []) }
{
    Some(Names {
        person: text_alone(subject, ACCESS_SUBJECT)?,
        action: text_alone(action, ACTION)?,
        resource: text_alone(resource, RESOURCE)?,
    })
}

/// The text of a category's id attribute, if it is the category of that id and has nothing else.
fn text_alone<'a>(category: &'a Category, id: &str) -> Option<&'a Text>
    ensures { option_copied result ≡ text_alone id.now category.now }
{
    let attribute = id_attribute(id)?;
    if category.id.as_str() == id {
        text_in(category.attributes.as_slice(), attribute)
    } else {
        None
    }
}

/// The text of the only one of several attributes, if it has that id.
fn text_in<'a>(attributes: &'a [Attribute], id: &str) -> Option<&'a Text>
    ensures { option_copied result ≡ text_in id.now attributes.now }
{
    match attributes {
        [attribute] => text_of(attribute, id),
        _ => None,
    }
}

/// The text of an attribute, if it has that id, no issuer and no other value.
fn text_of<'a>(attribute: &'a Attribute, id: &str) -> Option<&'a Text>
    ensures { option_copied result ≡ text_of id.now attribute.now }
{
    let of_id = attribute.id.as_str() == id && attribute.issuer.is_none();
    if of_id && attribute.bag.datatype() == DataType::Text {
        sole_text(attribute.bag.values())
    } else {
        None
    }
}

/// The only one of several values, if it is a text.
fn sole_text(values: &[Value]) -> Option<&Text>
    ensures { option_copied result ≡ sole_text values.now }
{
    match values {
        [Value::Text(text)] => Some(text),
        _ => None,
    }
}
