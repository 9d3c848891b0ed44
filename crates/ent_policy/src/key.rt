//! Names of documents, and references to them.

ghost use Rattle.std.specs.Prelude.{◌≡◌, IfOk};
ghost use Rattle.ent_policy.specs.References.{is_of};

use crate::name::Name;
use crate::pattern::VersionConstraints;
use crate::version::Version;
use ent_values::Text;
use std::alloc::{AllocError, Global};

/// What a document is: a policy or a policy set. Policies come first.
#[derive(Clone, Copy, Debug, PartialEq, Eq, PartialOrd, Ord)]
pub enum Kind {
    Policy,
    PolicySet,
}

impl Kind {
    ghost use Rattle.ent_policy.specs.Key.{kind_word};

    /// The element's name of such a document, as reports show it (sections 5.1 and 5.14).
    ///
    /// Its contract is an equation.
    pub fn word<'v>(self) -> &'v str
        ensures { result.now ≡ kind_word self }
    {
        match self {
            Kind::Policy => "Policy",
            Kind::PolicySet => "PolicySet",
        }
    }
}

/// The name under which a document is stored. Keys order by kind, by the bytes of the id and by version.
#[derive(PartialEq, Eq, PartialOrd, Ord, Drop)]
pub struct DocKey {
    pub kind: Kind,
    pub id: Text,
    pub version: Version,
}

/// Names a stored document: of that kind and id the most recent version that meets the constraints (sections 5.10 and
/// 5.11). References order by kind, by the bytes of the id and by their constraints.
#[derive(PartialEq, Eq, PartialOrd, Ord, Drop)]
pub struct Reference {
    pub kind: Kind,
    pub id: Name,
    pub constraints: VersionConstraints,
}

impl DocKey {
    /// An equal key.
    ///
    /// Its contract is an equation but for memory.
    pub fn copy(&self, alloc: Global) -> Result<DocKey, AllocError>
        ensures { IfOk result (λ k. k ≡ self.now) }
    {
        Ok(DocKey {
            kind: self.kind,
            id: self.id.copy(alloc)?,
            version: self.version.copy(),
        })
    }
}

impl Reference {
    /// Whether a key has the kind and the id of the reference. Its version may be any.
    ///
    /// Its contract is an equation.
    pub fn is_of(&self, key: &DocKey) -> bool
        ensures { result ≡ is_of self.now key.now }
    {
        self.kind == key.kind && self.id.as_str() == key.id.as_str()
    }

    /// An equal reference.
    ///
    /// Its contract is an equation but for memory.
    pub fn copy(&self, alloc: Global) -> Result<Reference, AllocError>
        ensures { IfOk result (λ r. r ≡ self.now) }
    {
        Ok(Reference {
            kind: self.kind,
            id: self.id.copy(alloc)?,
            constraints: self.constraints.copy(),
        })
    }
}
