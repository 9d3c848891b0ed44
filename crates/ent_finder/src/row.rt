//! Rows of attribute values, and the keys by which they are held and looked up.

ghost use Rattle.std.specs.Prelude.{◌≡◌, IfOk};
ghost use Rattle.ent_values.specs.Bags.{AllOfType};
ghost use Rattle.ent_finder.specs.Looking.{is_wanted, names_row};

use ent_values::{DataType, Items, Text, Value};
use std::alloc::{AllocError, Global};

/// Names values of an entity (section 7.3.5): those that the issuer gives, or without an issuer those that anyone
/// gives.
#[derive(PartialEq, Eq, PartialOrd, Ord, Drop)]
pub struct AttrKey {
    pub category: Text,
    pub entity: Text,
    pub attribute: Text,
    pub datatype: DataType,
    pub issuer: Option<Text>,
}

/// The key of one row: the values that the issuer gives, or without an issuer those that are given without one. Keys
/// order field by field, that without an issuer first.
#[derive(PartialEq, Eq, PartialOrd, Ord, Drop)]
pub struct RowKey {
    pub category: Text,
    pub entity: Text,
    pub attribute: Text,
    pub datatype: DataType,
    pub issuer: Option<Text>,
}

/// The row of a key. Once made it stays, perhaps empty.
#[derive(Drop)]
pub struct Row {
    pub key: RowKey,
    pub values: Items<Value>,

    // Each value has the type in the key.
    ghost typed: { AllOfType key.datatype values },
}

/// An equal issuer.
fn copy_of(issuer: &Option<Text>, alloc: Global) -> Result<Option<Text>, AllocError>
    ensures { IfOk result (λ i. i ≡ issuer.now) }
{
    match issuer {
        None => Ok(None),
        Some(issuer) => Ok(Some(issuer.copy(alloc)?)),
    }
}

/// Whether an issuer is the one that is wanted, if one is.
fn is_wanted(wanted: &Option<Text>, issuer: &Option<Text>) -> bool
    ensures { result ≡ is_wanted wanted.now issuer.now }
{
    match (wanted, issuer) {
        (None, _) => true,
        (Some(wanted), Some(issuer)) => wanted == issuer,
        (Some(_), None) => false,
    }
}

impl AttrKey {
    /// Whether it names a row: without an issuer that of any issuer and of none, with one that of this issuer alone.
    /// The other fields are equal.
    ///
    /// Its contract is an equation.
    pub fn names(&self, row: &RowKey) -> bool
        ensures { result ≡ names_row self.now row.now }
    {
        // Rows that differ mostly have other entities.
        self.entity == row.entity
            && self.attribute == row.attribute
            && self.datatype == row.datatype
            && is_wanted(&self.issuer, &row.issuer)
            && self.category == row.category
    }

    /// An equal key.
    ///
    /// Its contract is an equation but for memory.
    pub fn copy(&self, alloc: Global) -> Result<AttrKey, AllocError>
        ensures { IfOk result (λ k. k ≡ self.now) }
    {
        Ok(AttrKey {
            category: self.category.copy(alloc)?,
            entity: self.entity.copy(alloc)?,
            attribute: self.attribute.copy(alloc)?,
            datatype: self.datatype,
            issuer: copy_of(&self.issuer, alloc)?,
        })
    }
}

impl RowKey {
    /// An equal key.
    ///
    /// Its contract is an equation but for memory.
    pub fn copy(&self, alloc: Global) -> Result<RowKey, AllocError>
        ensures { IfOk result (λ k. k ≡ self.now) }
    {
        Ok(RowKey {
            category: self.category.copy(alloc)?,
            entity: self.entity.copy(alloc)?,
            attribute: self.attribute.copy(alloc)?,
            datatype: self.datatype,
            issuer: copy_of(&self.issuer, alloc)?,
        })
    }
}
