//! Which listed requests look a key up.

ghost use Rattle.std.specs.Prelude.{◌≡◌, false};
ghost use Rattle.std.specs.Option.{option_map_or};
ghost use Rattle.std.specs.Str.{bytes_eq};
ghost use Rattle.ent_request.specs.Readers as readers;
ghost use Rattle.ent_request.specs.Sources.{id_attribute};
ghost use Rattle.ent_request.specs.QuestionOf.{KeysAreOfOneQuestion};
ghost use Rattle.ent_request.specs.Readers.{KeysNameTheListed, ListedLookUps};
ghost use Rattle.ent_request.specs.Readers.{entity_in, is_own, name_at};

use crate::key::ReadKey;
use crate::own::same_text;
use crate::sources::id_attribute;
use crate::uris::{ACCESS_SUBJECT, ACTION, RESOURCE};
use ent_finder::AttrKey;
use ent_values::{DataType, Text};

/// A place of a listed request.
#[derive(Clone, Copy, PartialEq, Eq)]
pub enum NamePlace {
    Person,
    Action,
    Resource,
}

/// Which listed requests look a key up, of those that ask its question.
#[derive(Clone, Copy, PartialEq, Eq)]
pub enum Readers {
    /// Each of them.
    Every,
    /// Those that have the key's entity as their name at a place.
    Named(NamePlace),
    /// None of them.
    Nobody,
}

impl Readers {
    /// Those of a key.
    ///
    /// Its contract is an equation.
    pub fn of(key: &ReadKey) -> Readers
        ensures { result ≡ readers.readers_of key.now }
    {
        match key {
            ReadKey::Attr(attribute) => {
                if is_own(attribute) {
                    Readers::Nobody
                } else {
                    readers_in(attribute.category.as_str())
                }
            }
            _ => Readers::Every,
        }
    }

    /// Whether the listed request of three names is among them, of a key that names an entity.
    ///
    /// Its contract is an equation.
    pub fn have(self, entity: &str, person: &Text, action: &Text, resource: &Text) -> bool
        ensures { result ≡ readers.is_reader self entity.now person.now action.now resource.now }
    {
        match self {
            Readers::Every => true,
            Readers::Named(place) => same_text(
                entity,
                place.name(person, action, resource).as_str(),
            ),
            Readers::Nobody => false,
        }
    }
}

impl NamePlace {
    /// The name at a place, of three.
    ///
    /// Its contract is an equation.
    pub fn name<'t>(self, person: &'t Text, action: &'t Text, resource: &'t Text) -> &'t Text
        ensures { result.now ≡ name_at self person.now action.now resource.now }
    {
        match self {
            NamePlace::Person => person,
            NamePlace::Action => action,
            NamePlace::Resource => resource,
        }
    }
}

impl ReadKey {
    /// The entity whose values a key names: none, where it names no values.
    ///
    /// Its contract is an equation.
    pub fn entity(&self) -> &str
        ensures { result.now ≡ entity_in self.now }
    {
        match self {
            ReadKey::Attr(key) => key.entity.as_str(),
            _ => "",
        }
    }
}

// Those that have the key's entity as the name of that category.
fn readers_in(category: &str) -> Readers
    ensures { result ≡ readers.readers_in category.now }
{
    if category == ACCESS_SUBJECT {
        Readers::Named(NamePlace::Person)
    } else if category == RESOURCE {
        Readers::Named(NamePlace::Resource)
    } else if category == ACTION {
        Readers::Named(NamePlace::Action)
    } else {
        Readers::Nobody
    }
}

/// Whether listed requests have values of their own for what a key asks.
///
/// Its contract is an equation.
pub fn is_own(key: &AttrKey) -> bool
    ensures { result ≡ is_own key.now }
{
    is_id_attribute(key.category.as_str(), key.attribute.as_str())
        && DataType::Text == key.datatype
        && key.issuer.is_none()
}

// Whether an attribute is the id attribute of a category.
fn is_id_attribute(category: &str, attribute: &str) -> bool
    ensures { result ≡ option_map_or (λ id. bytes_eq id attribute.now) (id_attribute category.now) false }
{
    match id_attribute(category) {
        Some(id) => same_text(id, attribute),
        None => false,
    }
}

/// Law: a key is looked up for one question alone.
pub fn a_key_is_looked_up_for_one_question()
    ensures { KeysAreOfOneQuestion }
{}

/// Law: of a listed request a key is looked up exactly where its question is asked, and the request is one that looks
/// it up.
pub fn listed_requests_look_keys_up_by_their_names()
    ensures { ListedLookUps }
{}

/// Law: of a listed request each key of values names one of its names.
pub fn keys_name_the_listed()
    ensures { KeysNameTheListed }
{}
