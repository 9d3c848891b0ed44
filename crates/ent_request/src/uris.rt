//! The URIs of the categories and attributes that have a meaning of their own (appendix B).

/// The category of who asks (appendix B.2).
pub const ACCESS_SUBJECT: &str = "urn:oasis:names:tc:xacml:1.0:subject-category:access-subject";

// Its id attribute.
pub(crate) const SUBJECT_ID: &str = "urn:oasis:names:tc:xacml:1.0:subject:subject-id";

/// The category of what it is done with (appendix B.2).
pub const RESOURCE: &str = "urn:oasis:names:tc:xacml:3.0:attribute-category:resource";

// Its id attribute.
pub(crate) const RESOURCE_ID: &str = "urn:oasis:names:tc:xacml:1.0:resource:resource-id";

/// The category of what is done (appendix B.2).
pub const ACTION: &str = "urn:oasis:names:tc:xacml:3.0:attribute-category:action";

// Its id attribute.
pub(crate) const ACTION_ID: &str = "urn:oasis:names:tc:xacml:1.0:action:action-id";

// The category of what belongs to none of them, and its attributes of the date and of the time.
pub(crate) const ENVIRONMENT: &str = "urn:oasis:names:tc:xacml:3.0:attribute-category:environment";

pub const CURRENT_DATE: &str = "urn:oasis:names:tc:xacml:1.0:environment:current-date";

pub const CURRENT_TIME: &str = "urn:oasis:names:tc:xacml:1.0:environment:current-time";

pub const CURRENT_DATE_TIME: &str = "urn:oasis:names:tc:xacml:1.0:environment:current-dateTime";
