//! Attributes, as they are declared and as they are asked for.

ghost use Rattle.std.specs.Prelude.{◌≡◌, IfOk, option_map};
ghost use Rattle.lint_declared.specs.Asked.{asked, finds, finds_one, is_wanted};

use crate::known::DeclaredValues;
use ent_json::{JsonTree, text_at};
use ent_values::{DataType, Items, Text, Value};
use std::alloc::{AllocError, Global};

/// An attribute that is declared, or that a designator asks for: then without an issuer its values of any issuer and
/// of none are wanted.
#[derive(Drop)]
pub struct DeclaredAttribute {
    pub category: Text,
    pub id: Text,
    pub datatype: DataType,
    pub issuer: Option<Text>,
    /// The values that it may have, where they are listed; none where it is asked for.
    pub values: Option<Items<Value>>,
}

/// A text of the allocator's, if there is one.
pub(crate) fn owned(alloc: Global, text: Option<&str>) -> Result<Option<Text>, AllocError>
    ensures { IfOk result (λ t. t ≡ option_map (λ s. s.now) text.entry) }
{
    match text {
        None => Ok(None),
        Some(text) => Ok(Some(Text::from_str(alloc, text)?)),
    }
}

/// Whether an issuer is the one that is wanted, if one is.
fn is_wanted(wanted: &Option<Text>, issuer: &Option<Text>) -> bool
    ensures { result ≡ is_wanted wanted.now issuer.now }
{
    match (wanted, issuer) {
        (None, _) => true,
        (Some(wanted), Some(issuer)) => wanted == issuer,
        (Some(_), None) => false,
    }
}

impl DeclaredAttribute {
    /// Whether the values of an attribute are among those that this one asks for: category, id and data type are the
    /// same, and the issuer is if this one has one (section 7.3.4).
    ///
    /// Its contract is an equation.
    pub(crate) fn finds(&self, attribute: &DeclaredAttribute) -> bool
        ensures { result ≡ finds self.now attribute.now }
    {
        self.category == attribute.category
            && self.id == attribute.id
            && self.datatype == attribute.datatype
            && is_wanted(&self.issuer, &attribute.issuer)
    }
}

/// What a designator asks for, unless its category, id or data type is none.
#[tactic(auto, unfolding(crate::specs::Asked::asked))]
pub(crate) fn asked<J: JsonTree>(
    alloc: Global,
    designator: &J,
) -> Result<Option<DeclaredAttribute>, AllocError>
    ensures { IfOk result (λ o. o ≡ asked (J.content designator.now)) }
{
    let Some(category) = text_at(designator, "Category") else {
        return Ok(None);
    };
    let Some(id) = text_at(designator, "AttributeId") else {
        return Ok(None);
    };
    let Some(datatype) = text_at(designator, "DataType").and_then(DataType::from_name) else {
        return Ok(None);
    };
    let issuer = owned(alloc, text_at(designator, "Issuer"))?;
    Ok(Some(DeclaredAttribute {
        category: Text::from_str(alloc, category)?,
        id: Text::from_str(alloc, id)?,
        datatype,
        issuer,
        values: None,
    }))
}

/// Whether values of one of the attributes are asked for.
pub(crate) fn finds_one(
    attributes: &[DeclaredValues<'_>],
    wanted: &Option<DeclaredAttribute>,
) -> bool
    ensures { result ≡ finds_one attributes.now wanted.now }
{
    match wanted {
        None => false,
        Some(wanted) => attributes
            .iter()
            .any(|known| wanted.finds(known.attribute())),
    }
}
