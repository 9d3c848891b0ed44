//! The categories of a request.

ghost use Rattle.std.specs.Prelude.{◌≡◌, map};
ghost use Rattle.ent_profile.specs.Asks.{categories_of, category_at, category_by, category_of};
ghost use Rattle.ent_profile.specs.Reading.{Reads, each, gathered};

use crate::attribute::attributes;
use crate::categories::{NamedCategory, expanded};
use crate::fault::RequestFault;
use crate::form::{MOST_MEMBERS, at_most, name_in, none_or_many};
use ent_json::JsonTree;
use ent_request::Category;
use ent_values::{Items, Text};
use std::alloc::Global;

/// A category that stands at a short name.
#[tactic(auto, unfolding(crate::specs::Asks::category_by))]
fn category_by<J: JsonTree>(alloc: Global, uri: &str, object: &J) -> Result<Category, RequestFault>
    ensures { Reads result (category_by uri.now (J.content object.now)) }
{
    if !object.has_only(&["Attribute", "Id"]) {
        return Err(RequestFault::Bad);
    }
    let attributes = attributes(alloc, object)?;
    let id = Text::from_str(alloc, uri)?;
    Ok(Category { id, attributes })
}

/// Categories that stand at a short name, one for each value.
fn each_by<J: JsonTree>(
    alloc: Global,
    uri: &str,
    values: &[J],
) -> Result<Items<Category>, RequestFault>
    ensures { Reads result (each (category_by uri.now) (map J.content values.now)) }
{
    let mut all = Items::with_capacity(alloc, values.len())?;
    for value in values {
        all.push(category_by(alloc, uri, value)?)?;
    }
    Ok(all)
}

/// The category that stands at a short name, if it is there.
#[tactic(auto, unfolding(crate::specs::Asks::category_at))]
fn category_at<J: JsonTree>(
    alloc: Global,
    object: &J,
    category: NamedCategory,
) -> Result<Items<Category>, RequestFault>
    ensures { Reads result (category_at (J.content object.now) category) }
{
    let values = none_or_many(object, category.short_name());
    let values = at_most(1, values).ok_or(RequestFault::Bad)?;
    each_by(alloc, category.uri(), values)
}

/// The categories that stand at short names.
fn at_names<J: JsonTree>(
    alloc: Global,
    object: &J,
    names: &[NamedCategory],
) -> Result<Items<Category>, RequestFault>
    ensures { Reads result (gathered (category_at (J.content object.now)) names.now) }
{
    let mut all = Items::new(alloc);
    for name in names {
        all.append(category_at(alloc, object, *name)?)?;
    }
    Ok(all)
}

/// A category that names itself.
#[tactic(auto, unfolding(crate::specs::Asks::category_of))]
fn category_of<J: JsonTree>(alloc: Global, object: &J) -> Result<Category, RequestFault>
    ensures { Reads result (category_of (J.content object.now)) }
{
    if !object.has_only(&["Attribute", "CategoryId", "Id"]) {
        return Err(RequestFault::Bad);
    }
    let id = object.get("CategoryId").ok_or(RequestFault::Bad)?;
    let id = name_in(id).ok_or(RequestFault::Bad)?;
    let attributes = attributes(alloc, object)?;
    let id = Text::from_str(alloc, expanded(id))?;
    Ok(Category { id, attributes })
}

/// Categories that name themselves, one for each value.
fn each_other<J: JsonTree>(alloc: Global, values: &[J]) -> Result<Items<Category>, RequestFault>
    ensures { Reads result (each category_of (map J.content values.now)) }
{
    let mut all = Items::with_capacity(alloc, values.len())?;
    for value in values {
        all.push(category_of(alloc, value)?)?;
    }
    Ok(all)
}

/// The categories of a request, in their order.
#[tactic(auto, unfolding(crate::specs::Asks::categories_of))]
pub(crate) fn categories<J: JsonTree>(
    alloc: Global,
    object: &J,
) -> Result<Items<Category>, RequestFault>
    ensures { Reads result (categories_of (J.content object.now)) }
{
    let mut all = at_names(alloc, object, &NamedCategory::all())?;
    let values = none_or_many(object, "Category");
    let values = at_most(MOST_MEMBERS, values).ok_or(RequestFault::Bad)?;
    all.append(each_other(alloc, values)?)?;
    Ok(all)
}
