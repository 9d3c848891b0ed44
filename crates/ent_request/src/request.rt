//! Requests.

ghost use Rattle.std.specs.Prelude.{◌≡◌, IfOk, codes};
ghost use Rattle.ent_request.specs.Listed.{listed, named};

use crate::uris::{ACCESS_SUBJECT, ACTION, ACTION_ID, RESOURCE, RESOURCE_ID, SUBJECT_ID};
use ent_values::{Bag, Items, Text, Value};
use std::alloc::{AllocError, Global};

/// An attribute of a request, with its values (sections 5.46 and 7.3).
#[derive(PartialEq, Eq, Drop)]
pub struct Attribute {
    pub id: Text,
    pub issuer: Option<Text>,
    /// The values, all of one type.
    pub bag: Bag,
    /// Whether the attribute is to stand in the result.
    pub included: bool,
}

/// The attributes of one category (section 5.44).
#[derive(PartialEq, Eq, Drop)]
pub struct Category {
    pub id: Text,
    pub attributes: Items<Attribute>,
}

/// What is asked: the attributes of the subject, of the action, of the resource (section 5.42).
#[derive(PartialEq, Eq, Drop)]
pub struct Request {
    /// The categories, none of which stands twice.
    pub categories: Items<Category>,
}

impl Request {
    /// Whether a person may do an action with a resource, each by its id, a text without an issuer (appendix B.2 and
    /// B.4 to B.6).
    ///
    /// Its contract is an equation but for memory.
    pub fn listed(
        alloc: Global,
        person: &str,
        action: &str,
        resource: &str,
    ) -> Result<Request, AllocError>
        ensures { IfOk result (λ q. q ≡ listed person.now action.now resource.now) }
    {
        let mut categories = Items::with_capacity(alloc, 3)?;
        categories.push(named(alloc, ACCESS_SUBJECT, SUBJECT_ID, person)?)?;
        categories.push(named(alloc, ACTION, ACTION_ID, action)?)?;
        categories.push(named(alloc, RESOURCE, RESOURCE_ID, resource)?)?;
        Ok(Request { categories })
    }
}

// A category with one attribute of one text.
fn named(alloc: Global, category: &str, attribute: &str, text: &str) -> Result<Category, AllocError>
    ensures { IfOk result (λ c. c ≡ named category.now attribute.now text.now) }
{
    let attribute = Attribute {
        id: Text::from_str(alloc, attribute)?,
        issuer: None,
        bag: Bag::of_one(alloc, Value::Text(Text::from_str(alloc, text)?))?,
        included: false,
    };
    Ok(Category {
        id: Text::from_str(alloc, category)?,
        attributes: Items::of_one(alloc, attribute)?,
    })
}
