//! The attributes that are always declared.

ghost use Rattle.std.specs.Prelude.{◌≡◌, [], ◌∷◌, ◌++◌, IfOk, None, OnOk};
ghost use Rattle.lint_declared.specs.Attributes.{always, attribute};

use crate::attribute::DeclaredAttribute;
use ent_values::{DataType, Items, Text};
use std::alloc::{AllocError, Global};

/// The category of who asks (appendix B.2).
pub(crate) const ACCESS_SUBJECT: &str =
    "urn:oasis:names:tc:xacml:1.0:subject-category:access-subject";

/// The category of what is done (appendix B.2).
pub(crate) const ACTION: &str = "urn:oasis:names:tc:xacml:3.0:attribute-category:action";

/// The category of what it is done with (appendix B.2).
pub(crate) const RESOURCE: &str = "urn:oasis:names:tc:xacml:3.0:attribute-category:resource";

/// The category of what belongs to none of them (appendix B.2).
pub(crate) const ENVIRONMENT: &str = "urn:oasis:names:tc:xacml:3.0:attribute-category:environment";

/// The id of who asks (appendix B.4).
pub(crate) const SUBJECT_ID: &str = "urn:oasis:names:tc:xacml:1.0:subject:subject-id";

/// The id of what is done (appendix B.6).
pub(crate) const ACTION_ID: &str = "urn:oasis:names:tc:xacml:1.0:action:action-id";

/// The id of what it is done with (appendix B.5).
pub(crate) const RESOURCE_ID: &str = "urn:oasis:names:tc:xacml:1.0:resource:resource-id";

const CURRENT_DATE: &str = "urn:oasis:names:tc:xacml:1.0:environment:current-date";

const CURRENT_TIME: &str = "urn:oasis:names:tc:xacml:1.0:environment:current-time";

const CURRENT_DATE_TIME: &str = "urn:oasis:names:tc:xacml:1.0:environment:current-dateTime";

/// Puts an attribute last that has no issuer and may have any values.
fn put(
    alloc: Global,
    attributes: &mut Items<DeclaredAttribute>,
    category: &str,
    id: &str,
    datatype: DataType,
) -> Result<(), AllocError>
    ensures { OnOk result (attributes.new ≡ attributes.old ++ attribute category.now id.now datatype ∷ []) }
{
    let category = Text::from_str(alloc, category)?;
    let id = Text::from_str(alloc, id)?;
    attributes.push(DeclaredAttribute {
        category,
        id,
        datatype,
        issuer: None,
        values: None,
    })
}

/// The ids of the three names of a request of the table, and the attributes of the moment.
pub(crate) fn always(alloc: Global) -> Result<Items<DeclaredAttribute>, AllocError>
    ensures { IfOk result (λ a. a ≡ always) }
{
    let mut all = Items::with_capacity(alloc, 6)?;
    put(alloc, &mut all, ACCESS_SUBJECT, SUBJECT_ID, DataType::Text)?;
    put(alloc, &mut all, ACTION, ACTION_ID, DataType::Text)?;
    put(alloc, &mut all, RESOURCE, RESOURCE_ID, DataType::Text)?;
    put(alloc, &mut all, ENVIRONMENT, CURRENT_DATE, DataType::Date)?;
    put(alloc, &mut all, ENVIRONMENT, CURRENT_TIME, DataType::Time)?;
    put(
        alloc,
        &mut all,
        ENVIRONMENT,
        CURRENT_DATE_TIME,
        DataType::DateTime,
    )?;
    Ok(all)
}
