//! Bags that are lent.

ghost use Rattle.std.specs.Prelude.{◌≡◌, [], IfOk};
ghost use Rattle.ent_values.specs.Bags.{AllOfType};

use crate::own_bag::copied;
use ent_values::{Bag, DataType, Shared, Value};
use std::alloc::{AllocError, Global};
use std::marker::Model;

/// A bag whose values stand where they are held, in a request or in a row, or that has several owners.
#[derive(Drop)]
pub struct LentBag<'a> {
    datatype: DataType,
    values: Lent<'a>,
}

#[derive(Drop)]
enum Lent<'a> {
    Lying(&'a [Value]),
    Owned(Shared<Bag>),
}

impl<'a> Model for LentBag<'a> {
    ghost use Rattle.ent_values.specs.Bags.{Contents};
    ghost use Rattle.ent_request.specs.proofs_only.LentBag.{AreTyped, lent_in};

    ghost Value = { Contents };

    ghost view = { λ b. record { datatype = b.datatype; values = lent_in b.values } };

    ghost invariant = { λ b. AreTyped b.datatype b.values };
}

impl<'a> LentBag<'a> {
    /// The empty bag of a type.
    ///
    /// Its contract is an equation.
    pub(crate) fn empty(datatype: DataType) -> LentBag<'a>
        ensures { result ≡ record { datatype = datatype; values = [] } }
    {
        LentBag {
            datatype,
            values: Lent::Lying(&[]),
        }
    }

    /// Of values that all have that type.
    ///
    /// Its contract is an equation.
    pub(crate) fn lying(datatype: DataType, values: &'a [Value]) -> LentBag<'a>
        requires { AllOfType datatype values.now }
        ensures { result ≡ record { datatype = datatype; values = values.now } }
    {
        LentBag {
            datatype,
            values: Lent::Lying(values),
        }
    }

    /// Of a bag, which is moved and not copied.
    ///
    /// Its contract is an equation but for memory.
    pub(crate) fn owned(alloc: Global, bag: Bag) -> Result<LentBag<'a>, AllocError>
        ensures { IfOk result (λ b. b ≡ bag) }
    {
        Ok(LentBag {
            datatype: bag.datatype(),
            values: Lent::Owned(Shared::new(alloc, bag)?),
        })
    }

    /// The values, which all have the bag's type.
    ///
    /// Its contract is an equation.
    pub fn values(&self) -> &[Value]
        ensures value { result.now ≡ self.now.values }
        ensures types { AllOfType self.now.datatype self.now.values }
    {
        match &self.values {
            Lent::Lying(values) => *values,
            Lent::Owned(bag) => bag.get().values(),
        }
    }

    /// The same bag. No value is copied.
    ///
    /// Its contract is an equation but for memory.
    pub fn copy(&self) -> Result<LentBag<'a>, AllocError>
        ensures { IfOk result (λ b. b ≡ self.now) }
    {
        match &self.values {
            Lent::Lying(values) => Ok(LentBag::lying(self.datatype, *values)),
            Lent::Owned(bag) => Ok(LentBag {
                datatype: self.datatype,
                values: Lent::Owned(bag.copy()?),
            }),
        }
    }

    /// An equal bag.
    ///
    /// Its contract is an equation but for memory.
    pub fn to_bag(&self, alloc: Global) -> Result<Bag, AllocError>
        ensures { IfOk result (λ b. b ≡ self.now) }
    {
        copied(alloc, self.datatype, self.values())
    }
}
