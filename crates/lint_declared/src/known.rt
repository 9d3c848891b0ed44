//! Attributes that are declared, each with its values as a set.

ghost use Rattle.std.specs.Prelude.{◌≡◌, IfOk, map};
ghost use Rattle.lint_declared.specs.Compared.{lists, lists_values};
ghost use Rattle.lint_declared.specs.proofs_only.Values.{ListsAsSet, MaybeAsSet};

use crate::attribute::DeclaredAttribute;
use ent_values::{Items, Value};
use std::alloc::{AllocError, Global};
use std::collections::BTreeSet;
use std::marker::Model;

/// An attribute that is declared, with the set of the values that are listed for it.
#[derive(Drop)]
pub(crate) struct DeclaredValues<'a> {
    attribute: &'a DeclaredAttribute,
    values: BTreeSet<Value>,
}

impl<'a> Model for DeclaredValues<'a> {
    ghost use Rattle.lint_declared.specs.declared.attribute.DeclaredAttribute.{DeclaredAttribute};
    ghost use Rattle.lint_declared.specs.proofs_only.Values.{MaybeAsSet};

    ghost Value = { DeclaredAttribute };

    ghost view = { λ k. k.attribute.now };

    ghost invariant = { λ k. MaybeAsSet k.attribute.now.values k.values };
}

/// The set of some values.
fn set_of(alloc: Global, values: &[Value]) -> Result<BTreeSet<Value>, AllocError>
    ensures { IfOk result (λ s. ListsAsSet values.now s) }
{
    let mut set = BTreeSet::new(alloc);
    for value in values {
        set.insert(value.copy(alloc)?)?;
    }
    Ok(set)
}

/// The set of values that may be listed.
fn set_of_listed(
    alloc: Global,
    values: &Option<Items<Value>>,
) -> Result<BTreeSet<Value>, AllocError>
    ensures { IfOk result (λ s. MaybeAsSet values.now s) }
{
    match values {
        None => Ok(BTreeSet::new(alloc)),
        Some(values) => set_of(alloc, values.as_slice()),
    }
}

impl<'a> DeclaredValues<'a> {
    /// An attribute with the set of its values.
    fn new(
        alloc: Global,
        attribute: &'a DeclaredAttribute,
    ) -> Result<DeclaredValues<'a>, AllocError>
        ensures { IfOk result (λ k. k ≡ attribute.now) }
    {
        let values = set_of_listed(alloc, &attribute.values)?;
        Ok(DeclaredValues { attribute, values })
    }

    /// The attribute.
    pub(crate) fn attribute(&self) -> &'a DeclaredAttribute
        ensures { result.now ≡ self.now }
    {
        self.attribute
    }

    /// Whether its values are listed.
    pub(crate) fn lists_values(&self) -> bool
        ensures { result ≡ lists_values self.now }
    {
        self.attribute.values.is_some()
    }

    /// Whether a value is among those that are listed, in time logarithmic in their number.
    pub(crate) fn lists(&self, value: &Value) -> bool
        ensures { result ≡ lists value.now self.now }
    {
        self.values.contains(value)
    }
}

/// Each of some attributes with the set of its values.
pub(crate) fn with_sets<'a>(
    alloc: Global,
    attributes: &'a [DeclaredAttribute],
) -> Result<Vec<DeclaredValues<'a>>, AllocError>
    ensures { IfOk result (λ all. all.items ≡ attributes.now) }
{
    let mut all = Vec::with_capacity(alloc, attributes.len())?;
    for attribute in attributes {
        all.push(DeclaredValues::new(alloc, attribute)?)?;
    }
    Ok(all)
}
