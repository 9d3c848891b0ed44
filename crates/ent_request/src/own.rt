//! The values that a request itself has for a designator, and where they lie.

ghost use Rattle.std.specs.Prelude.{◌≡◌, ◌↔◌, IsTrue, MatchOption, false, option_copied};
ghost use Rattle.std.specs.Str.{bytes_eq};
ghost use Rattle.ent_values.specs.Bags.{AllOfType};
ghost use Rattle.ent_request.specs.Own.{attributes_in, has_issuer, is_designated, own_values, values_in};
ghost use Rattle.ent_request.specs.proofs_only.Sought.{AreSeveral, IsWhole, designator_of, values_of};

use crate::request::{Attribute, Category, Request};
use ent_finder::either;
use ent_policy::Designator;
use ent_values::{DataType, Text, Value};

/// What is looked for in a request: the attributes of a category that have an id, a type and, if one is named, an
/// issuer (sections 5.29 and 7.3.5).
#[derive(Clone, Copy)]
pub struct Sought<'a> {
    pub category: &'a str,
    pub attribute: &'a str,
    pub datatype: DataType,
    /// An absent issuer is any.
    pub issuer: Option<&'a str>,
}

impl<'a> Sought<'a> {
    /// What a designator names.
    ///
    /// Its contract is an equation.
    pub fn of(designator: &'a Designator) -> Sought<'a>
        ensures { designator_of result ≡ record designator.now { must_be_present = false } }
    {
        Sought {
            category: designator.category.as_str(),
            attribute: designator.attribute.as_str(),
            datatype: designator.datatype,
            issuer: issuer_of(&designator.issuer),
        }
    }

    // Whether an attribute is one that is looked for.
    fn is_met_by(&self, attribute: &Attribute) -> bool
        ensures { result ≡ is_designated (designator_of self.now) attribute.now }
    {
        same_text(attribute.id.as_str(), self.attribute)
            && attribute.bag.datatype() == self.datatype
            && has_issuer(self.issuer, &attribute.issuer)
    }
}

/// The request's own values, where one slice has them all: where they don't lie in several attributes.
///
/// Its contract is an equation.
pub(crate) fn own_values<'a>(request: &'a Request, sought: &Sought<'_>) -> Option<&'a [Value]>
    ensures { MatchOption result (AreSeveral (own_values (designator_of sought.now) request.now))
        (λ v. IsWhole sought.now.datatype (own_values (designator_of sought.now) request.now) v.now) }
{
    let mut so_far: &'a [Value] = &[];
    for category in request.categories.as_slice() {
        so_far = either(so_far, values_of(category, sought)?)?;
    }
    Some(so_far)
}

// The same of one category.
fn values_of<'a>(category: &'a Category, sought: &Sought<'_>) -> Option<&'a [Value]>
    ensures { MatchOption result (AreSeveral (values_of (designator_of sought.now) category.now))
        (λ v. IsWhole sought.now.datatype (values_of (designator_of sought.now) category.now) v.now) }
{
    let mut so_far: &'a [Value] = &[];
    for attribute in attributes_in(sought.category, category) {
        so_far = either(so_far, values_in(attribute, sought))?;
    }
    Some(so_far)
}

// The attributes in a category, if it is the one of that id.
pub(crate) fn attributes_in<'a>(id: &str, category: &'a Category) -> &'a [Attribute]
    ensures { result.now ≡ attributes_in id.now category.now }
{
    if same_text(category.id.as_str(), id) {
        category.attributes.as_slice()
    } else {
        &[]
    }
}

// The values of an attribute, if it is one that is looked for.
pub(crate) fn values_in<'a>(attribute: &'a Attribute, sought: &Sought<'_>) -> &'a [Value]
    ensures value { result.now ≡ values_in (designator_of sought.now) attribute.now }
    ensures types { AllOfType sought.now.datatype result.now }
{
    if sought.is_met_by(attribute) {
        attribute.bag.values()
    } else {
        &[]
    }
}

pub(crate) fn issuer_of(issuer: &Option<Text>) -> Option<&str>
    ensures { option_copied result ≡ issuer.now }
{
    match issuer {
        None => None,
        Some(issuer) => Some(issuer.as_str()),
    }
}

// Whether an issuer is the one that is wanted, if one is.
fn has_issuer(wanted: Option<&str>, issuer: &Option<Text>) -> bool
    ensures { result ≡ has_issuer (option_copied wanted.entry) issuer.now }
{
    match (wanted, issuer) {
        (None, _) => true,
        (Some(wanted), Some(issuer)) => issuer.as_str() == wanted,
        (Some(_), None) => false,
    }
}

/// Whether two texts are equal. Most that differ do so in their lengths already, which lie nearer than their bytes.
///
/// Its contract is an equation.
pub(crate) fn same_text(first: &str, second: &str) -> bool
    ensures { result ≡ bytes_eq first.now second.now }
{
    first.len() == second.len() && first == second
}

/// Whether two issuers are the same, or neither is there.
///
/// Its contract is an equation.
pub fn same_issuer(first: &Option<Text>, second: &Option<Text>) -> bool
    ensures { IsTrue result ↔ first.now ≡ second.now }
{
    match (first, second) {
        (None, None) => true,
        (Some(first), Some(second)) => same_text(first.as_str(), second.as_str()),
        _ => false,
    }
}
