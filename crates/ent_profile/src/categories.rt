//! The categories that have a short name.

ghost use Rattle.std.specs.Prelude.{◌≡◌};
ghost use Rattle.ent_profile.specs.Categories.{expanded, named, named_categories, short_name, uri_of};

use ent_request::{ACCESS_SUBJECT, ACTION, RESOURCE};

/// A category that has a short name (appendix B.2 and B.3).
#[derive(Clone, Copy, PartialEq, Eq)]
pub(crate) enum NamedCategory {
    AccessSubject,
    Action,
    Resource,
    Environment,
    RecipientSubject,
    IntermediarySubject,
    Codebase,
    RequestingMachine,
}

impl NamedCategory {
    /// All of them, in the order in which a request has them.
    pub(crate) fn all() -> [NamedCategory; 8]
        ensures { result ≡ named_categories }
    {
        [
            NamedCategory::AccessSubject,
            NamedCategory::Action,
            NamedCategory::Resource,
            NamedCategory::Environment,
            NamedCategory::RecipientSubject,
            NamedCategory::IntermediarySubject,
            NamedCategory::Codebase,
            NamedCategory::RequestingMachine,
        ]
    }

    /// The short name.
    #[tactic(auto, unfolding(crate::specs::Categories::short_name))]
    pub(crate) fn short_name(self) -> &'static str
        ensures { result.now ≡ short_name self }
    {
        match self {
            NamedCategory::AccessSubject => "AccessSubject",
            NamedCategory::Action => "Action",
            NamedCategory::Resource => "Resource",
            NamedCategory::Environment => "Environment",
            NamedCategory::RecipientSubject => "RecipientSubject",
            NamedCategory::IntermediarySubject => "IntermediarySubject",
            NamedCategory::Codebase => "Codebase",
            NamedCategory::RequestingMachine => "RequestingMachine",
        }
    }

    /// The URI.
    #[tactic(auto, unfolding(crate::specs::Categories::uri_of))]
    pub(crate) fn uri(self) -> &'static str
        ensures { result.now ≡ uri_of self }
    {
        match self {
            NamedCategory::AccessSubject => ACCESS_SUBJECT,
            NamedCategory::Action => ACTION,
            NamedCategory::Resource => RESOURCE,
            NamedCategory::Environment => {
                "urn:oasis:names:tc:xacml:3.0:attribute-category:environment"
            }
            NamedCategory::RecipientSubject => {
                "urn:oasis:names:tc:xacml:1.0:subject-category:recipient-subject"
            }
            NamedCategory::IntermediarySubject => {
                "urn:oasis:names:tc:xacml:1.0:subject-category:intermediary-subject"
            }
            NamedCategory::Codebase => { "urn:oasis:names:tc:xacml:1.0:subject-category:codebase" }
            NamedCategory::RequestingMachine => {
                "urn:oasis:names:tc:xacml:1.0:subject-category:requesting-machine"
            }
        }
    }

    /// The category of that short name.
    #[tactic(auto, unfolding(crate::specs::Categories::named))]
    fn from_name(name: &str) -> Option<NamedCategory>
        ensures { result ≡ named name.now }
    {
        NamedCategory::all()
            .iter()
            .copied()
            .find(|category| name == category.short_name())
    }
}

/// The URI that a CategoryId stands for.
#[tactic(auto, unfolding(crate::specs::Categories::expanded))]
pub(crate) fn expanded(id: &str) -> &str
    ensures { result.now ≡ expanded id.now }
{
    match NamedCategory::from_name(id) {
        Some(category) => category.uri(),
        None => id,
    }
}
