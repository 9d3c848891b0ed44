//! What an evaluation asks.

ghost use Rattle.std.specs.Prelude.{◌≡◌, ◌↔◌, IfOk, IsTrue};
ghost use Rattle.ent_request.specs.QuestionOf.{of_environment, question_of};
ghost use Rattle.ent_request.specs.Sources.{asked_of, designator_for, key_for};
ghost use Rattle.ent_request.specs.proofs_only.Hashed.{question_alike, question_input};
ghost use Rattle.ent_request.specs.proofs_only.Sought.{designator_of};
ghost use Rattle.ent_request.specs.declared.key.ReadKey.TheVariants.{Attr};
ghost use Rattle.ent_request.specs.declared.question.Question.TheVariants.{Of};

use crate::answer::copied_text;
use crate::hashed::{feed_attribute, feed_reference};
use crate::key::ReadKey;
use crate::own::{Sought, issuer_of, same_issuer, same_text};
use crate::uris::{CURRENT_DATE, CURRENT_DATE_TIME, CURRENT_TIME, ENVIRONMENT};
use ent_finder::AttrKey;
use ent_policy::{Designator, Reference};
use ent_values::{DataType, Text};
use std::alloc::{AllocError, Global};
use std::hash::{Hash, Hasher};

/// What is asked of an attribute: its values, whether or not one must be present.
#[derive(PartialEq, Eq, Drop)]
pub struct Asked {
    pub category: Text,
    pub attribute: Text,
    pub datatype: DataType,
    /// The issuer that the values must have; any, if it is `None`.
    pub issuer: Option<Text>,
}

/// What an evaluation asks, whoever asks. Which keys are looked up for it is told by the request.
#[derive(PartialEq, Eq, Drop)]
pub enum Question {
    /// Which policy or policy set is the root.
    Root,
    /// Which document a reference names.
    Ref(Reference),
    /// Which values an attribute has.
    Of(Asked),
}

impl Asked {
    /// What a designator asks for.
    ///
    /// Its contract is an equation but for memory.
    pub fn of(alloc: Global, designator: &Designator) -> Result<Asked, AllocError>
        ensures { IfOk result (λ a. a ≡ asked_of designator.now) }
    {
        Ok(Asked {
            category: designator.category.copy(alloc)?,
            attribute: designator.attribute.copy(alloc)?,
            datatype: designator.datatype,
            issuer: copied_text(alloc, &designator.issuer)?,
        })
    }

    // An equal one.
    fn copy(&self, alloc: Global) -> Result<Asked, AllocError>
        ensures { IfOk result (λ a. a ≡ self.now) }
    {
        let issuer = copied_text(alloc, &self.issuer)?;
        Ok(Asked {
            category: self.category.copy(alloc)?,
            attribute: self.attribute.copy(alloc)?,
            datatype: self.datatype,
            issuer,
        })
    }

    // What a key of values is looked up for.
    fn of_key(alloc: Global, key: &AttrKey) -> Result<Asked, AllocError>
        ensures { IfOk result (λ a. Of a ≡ question_of (Attr key.now)) }
    {
        Ok(Asked {
            category: key.category.copy(alloc)?,
            attribute: key.attribute.copy(alloc)?,
            datatype: key.datatype,
            issuer: copied_text(alloc, &key.issuer)?,
        })
    }

    /// Whether a designator asks for it. Most that don't differ in the attribute already.
    ///
    /// Its contract is an equation.
    pub fn is_of(&self, designator: &Designator) -> bool
        ensures { IsTrue result ↔ self.now ≡ asked_of designator.now }
    {
        same_text(self.attribute.as_str(), designator.attribute.as_str())
            && same_text(self.category.as_str(), designator.category.as_str())
            && self.datatype == designator.datatype
            && same_issuer(&self.issuer, &designator.issuer)
    }

    /// The key by which its values of an entity are looked up.
    ///
    /// Its contract is an equation but for memory.
    pub fn key(&self, alloc: Global, entity: &Text) -> Result<AttrKey, AllocError>
        ensures { IfOk result (λ k. k ≡ key_for (designator_for self.now) entity.now) }
    {
        Ok(AttrKey {
            category: self.category.copy(alloc)?,
            entity: entity.copy(alloc)?,
            attribute: self.attribute.copy(alloc)?,
            datatype: self.datatype,
            issuer: copied_text(alloc, &self.issuer)?,
        })
    }

    /// What is looked for in a request.
    ///
    /// Its contract is an equation.
    pub fn sought(&self) -> Sought<'_>
        ensures { designator_of result ≡ designator_for self.now }
    {
        Sought {
            category: self.category.as_str(),
            attribute: self.attribute.as_str(),
            datatype: self.datatype,
            issuer: issuer_of(&self.issuer),
        }
    }
}

impl Question {
    /// The question that a key is looked up for.
    ///
    /// Its contract is an equation but for memory.
    pub fn of_key(alloc: Global, key: &ReadKey) -> Result<Question, AllocError>
        ensures { IfOk result (λ q. q ≡ question_of key.now) }
    {
        match key {
            ReadKey::Root => Ok(Question::Root),
            ReadKey::Ref(reference) => Ok(Question::Ref(reference.copy(alloc)?)),
            ReadKey::Attr(key) => Ok(Question::Of(Asked::of_key(alloc, key)?)),
            ReadKey::CurrentDate => Question::of_environment(alloc, CURRENT_DATE, DataType::Date),
            ReadKey::CurrentTime => Question::of_environment(alloc, CURRENT_TIME, DataType::Time),
            ReadKey::CurrentDateTime => Question::of_environment(
                alloc,
                CURRENT_DATE_TIME,
                DataType::DateTime,
            ),
        }
    }

    // What is asked of an attribute of the environment, of that type.
    fn of_environment(
        alloc: Global,
        attribute: &str,
        datatype: DataType,
    ) -> Result<Question, AllocError>
        ensures { IfOk result (λ q. q ≡ of_environment attribute.now datatype) }
    {
        Ok(Question::Of(Asked {
            category: Text::from_str(alloc, ENVIRONMENT)?,
            attribute: Text::from_str(alloc, attribute)?,
            datatype,
            issuer: None,
        }))
    }

    /// An equal question.
    ///
    /// Its contract is an equation but for memory.
    pub fn copy(&self, alloc: Global) -> Result<Question, AllocError>
        ensures { IfOk result (λ q. q ≡ self.now) }
    {
        match self {
            Question::Root => Ok(Question::Root),
            Question::Ref(reference) => Ok(Question::Ref(reference.copy(alloc)?)),
            Question::Of(asked) => Ok(Question::Of(asked.copy(alloc)?)),
        }
    }
}

impl Hash for Question {
    ghost hash_input = { question_input };

    ghost respects_eq = { question_alike };

    fn hash<H: Hasher>(&self, state: &mut H) {
        match self {
            Question::Root => {}
            Question::Ref(reference) => feed_reference(reference, state),
            Question::Of(asked) => {
                feed_attribute(&asked.attribute, &asked.category, &asked.issuer, state);
            }
        }
    }
}

/// Whether two references are equal.
///
/// Its contract leaves open: when it answers `false`, which it may always: its callers then look or compare otherwise.
#[tactic(auto, using(crate::proofs::Sames::equal_references))]
pub fn same_reference(first: &Reference, second: &Reference) -> bool
    ensures { IsTrue result → first.now ≡ second.now }
{
    first == second
}
