//! What a response repeats of the request, written straight into a text.

ghost use Rattle.std.specs.Prelude.{◌≡◌, ◌++◌, OnOk, codes, filter_map, map};
ghost use Rattle.std.specs.List.{list_any};
ghost use Rattle.ent_json.specs.Text.{tokens_of};
ghost use Rattle.ent_json.specs.proofs_only.Keyed.{optional_tokens};
ghost use Rattle.ent_json.specs.proofs_only.Text.{items_tokens_of};
ghost use Rattle.ent_json.specs.Members.{filled_list};
ghost use Rattle.ent_polform.specs.Written.{value_written};
ghost use Rattle.ent_profile.specs.Response.{attribute_written, category_written, included, values_written};
ghost use Rattle.ent_profile.specs.proofs_only.Written.{tokens_if_any};

use ent_json::{JsonText, write_optional, write_text};
use ent_polform::write_value_text;
use ent_request::{Attribute, Category};
use ent_values::Value;
use std::alloc::{AllocError, Global};

/// Writes values, to the end of their list.
fn write_each_value(alloc: Global, out: &mut JsonText, values: &[Value]) -> Result<(), AllocError>
    ensures { OnOk result (out.new ≡ out.old ++ items_tokens_of (map value_written values.now)) }
{
    for value in values {
        write_value_text(alloc, out, value)?;
    }
    out.end_array()
}

/// Writes the values of an attribute.
fn write_values(alloc: Global, out: &mut JsonText, values: &[Value]) -> Result<(), AllocError>
    ensures { OnOk result (out.new ≡ out.old ++ tokens_of (values_written values.now)) }
{
    match values {
        [value] => write_value_text(alloc, out, value),
        [] | [_, _, ..] => {
            out.begin_array()?;
            write_each_value(alloc, out, values)
        }
    }
}

/// Writes an attribute.
fn write_attribute(
    alloc: Global,
    out: &mut JsonText,
    attribute: &Attribute,
) -> Result<(), AllocError>
    ensures { OnOk result (out.new ≡ out.old ++ tokens_of (attribute_written attribute.now)) }
{
    out.begin_object()?;
    write_text(out, "AttributeId", attribute.id.as_str())?;
    write_text(out, "DataType", attribute.bag.datatype().uri())?;
    write_optional(out, "Issuer", &attribute.issuer)?;
    out.key("Value")?;
    write_values(alloc, out, attribute.bag.values())?;
    out.end_object()
}

/// Writes an attribute, if it is included.
fn write_included(
    alloc: Global,
    out: &mut JsonText,
    attribute: &Attribute,
) -> Result<(), AllocError>
    ensures { OnOk result (out.new ≡ out.old ++ tokens_if_any (included attribute.now)) }
{
    if !attribute.included {
        return Ok(());
    }
    write_attribute(alloc, out, attribute)
}

/// Writes the attributes that are included, to the end of their list.
fn write_attributes(
    alloc: Global,
    out: &mut JsonText,
    attributes: &[Attribute],
) -> Result<(), AllocError>
    ensures { OnOk result (out.new ≡ out.old ++ items_tokens_of (filter_map included attributes.now)) }
{
    for attribute in attributes {
        write_included(alloc, out, attribute)?;
    }
    out.end_array()
}

/// Whether an attribute of the category is included.
fn has_included(category: &Category) -> bool
    ensures { result ≡ list_any (λ a. a.included) category.now.attributes }
{
    let attributes = category.attributes.as_slice();
    attributes.iter().any(|attribute| attribute.included)
}

/// Writes a category, if an attribute of it is included.
fn write_category(alloc: Global, out: &mut JsonText, category: &Category) -> Result<(), AllocError>
    ensures { OnOk result (out.new ≡ out.old ++ tokens_if_any (category_written category.now)) }
{
    if !has_included(category) {
        return Ok(());
    }
    out.begin_object()?;
    out.key("Attribute")?;
    out.begin_array()?;
    write_attributes(alloc, out, category.attributes.as_slice())?;
    write_text(out, "CategoryId", category.id.as_str())?;
    out.end_object()
}

/// Writes the categories of which an attribute is included, to the end of their list.
fn write_each_category(
    alloc: Global,
    out: &mut JsonText,
    categories: &[Category],
) -> Result<(), AllocError>
    ensures { OnOk result (out.new ≡ out.old ++ items_tokens_of (filter_map category_written categories.now)) }
{
    for category in categories {
        write_category(alloc, out, category)?;
    }
    out.end_array()
}

/// Whether an attribute of some category is included.
fn have_included(categories: &[Category]) -> bool
    ensures { result ≡ list_any (λ c. list_any (λ a. a.included) c.attributes) categories.now }
{
    categories.iter().any(|category| has_included(category))
}

/// Writes the categories of which an attribute is included at their key, if there is one.
pub(crate) fn write_categories(
    alloc: Global,
    out: &mut JsonText,
    categories: &[Category],
) -> Result<(), AllocError>
    ensures { OnOk result (out.new ≡ out.old ++ optional_tokens (codes "Category") (filled_list (filter_map category_written categories.now))) }
{
    if !have_included(categories) {
        return Ok(());
    }
    out.key("Category")?;
    out.begin_array()?;
    write_each_category(alloc, out, categories)
}
