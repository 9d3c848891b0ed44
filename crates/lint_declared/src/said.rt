//! Attributes in words.

use crate::always::{ACCESS_SUBJECT, ACTION, ENVIRONMENT, RESOURCE};
use crate::attribute::DeclaredAttribute;
use lint_messages::shortened;
use std::alloc::{AllocError, Global};

/// A category as people write it: the last word of the four that requests have, and others as they stand.
fn category_word(category: &str) -> &str {
    if category == ACCESS_SUBJECT {
        return "access-subject";
    }
    if category == ACTION {
        return "action";
    }
    if category == RESOURCE {
        return "resource";
    }
    if category == ENVIRONMENT {
        return "environment";
    }
    category
}

/// A text that a file gives, as it is said: cut where it is long, and with its control characters escaped.
pub(crate) fn said(alloc: Global, text: &str) -> Result<String, AllocError> {
    let shown = shortened(alloc, text)?;
    let shown = shown.as_str().escape_debug();
    format!(in alloc; "{shown}")
}

/// An attribute as it is asked for: id, data type, issuer and category.
pub(crate) fn name(alloc: Global, attribute: &DeclaredAttribute) -> Result<String, AllocError> {
    let id = said(alloc, attribute.id.as_str())?;
    let datatype = attribute.datatype.short_name();
    let category = said(alloc, category_word(attribute.category.as_str()))?;
    match &attribute.issuer {
        None => format!(in alloc; "`{id}` ({datatype}) of {category}"),
        Some(issuer) => {
            let issuer = said(alloc, issuer.as_str())?;
            format!(in alloc; "`{id}` ({datatype}, issuer `{issuer}`) of {category}")
        }
    }
}

/// What is declared under the same id.
fn same_id(
    alloc: Global,
    wanted: &DeclaredAttribute,
    declared: &DeclaredAttribute,
) -> Result<String, AllocError> {
    let id = declared.id.as_str().escape_debug();
    let datatype = declared.datatype.short_name();
    let category = declared.category.as_str().escape_debug();
    let same_type = wanted.datatype == declared.datatype;
    if wanted.category != declared.category {
        return if same_type {
            format!(in alloc; "`{id}` is declared in the category `{category}`")
        } else {
            format!(in alloc; "`{id}` is declared as {datatype} in the category `{category}`")
        };
    }
    if !same_type {
        return format!(in alloc; "`{id}` is declared as {datatype}");
    }
    match &declared.issuer {
        None => format!(in alloc; "`{id}` is declared without an issuer"),
        Some(issuer) => {
            let issuer = issuer.as_str().escape_debug();
            format!(in alloc; "`{id}` is declared with the issuer `{issuer}`")
        }
    }
}

/// What is declared in the place of the attribute that is wanted.
pub(crate) fn hint(
    alloc: Global,
    wanted: &DeclaredAttribute,
    declared: &DeclaredAttribute,
) -> Result<String, AllocError> {
    if wanted.id == declared.id {
        return same_id(alloc, wanted, declared);
    }
    let id = declared.id.as_str().escape_debug();
    if wanted.category == declared.category && wanted.datatype == declared.datatype {
        return format!(in alloc; "did you mean `{id}`?");
    }
    let datatype = declared.datatype.short_name();
    let category = category_word(declared.category.as_str()).escape_debug();
    format!(in alloc; "did you mean `{id}` ({datatype}) of {category}?")
}
