//! Bags of values.

ghost use Rattle.std.specs.Prelude.{◌≡◌, [], ◌∷◌, ◌++◌, ◌↔◌, IfOk, IsTrue, OnErr, OnOk, length};

use crate::datatype::DataType;
use crate::items::Items;
use crate::value::Value;
use std::alloc::{AllocError, Global};
use std::marker::Model;

/// A bag (section 7.3.2): values of one type, in an order that has no meaning, each as often as it stands.
#[derive(Debug, PartialEq, Eq, Drop)]
pub struct Bag {
    datatype: DataType,
    values: Items<Value>,
}

impl Model for Bag {
    ghost use Rattle.ent_values.specs.Bags.{AllOfType, Contents};

    ghost Value = { Contents };

    ghost view = { λ b. record { datatype = b.datatype; values = b.values } };

    ghost invariant = { λ b. AllOfType b.datatype b.values };

    ghost inverse = { λ b. record { datatype = b.datatype; values = b.values } };
}

impl Bag {
    ghost use Rattle.ent_values.specs.Bags.{AllOfType, Contents};
    ghost use Rattle.ent_values.specs.Types.{datatype_of};

    /// The empty bag of a type, for which nothing is allocated.
    ///
    /// Its contract is an equation.
    pub fn new(alloc: Global, datatype: DataType) -> Bag
        ensures { result ≡ record { datatype = datatype; values = [] } }
    {
        Bag {
            datatype,
            values: Items::new(alloc),
        }
    }

    /// The bag of values that all have that type. They are moved and not copied.
    ///
    /// Its contract is an equation.
    pub fn of(datatype: DataType, values: Items<Value>) -> Bag
        requires { AllOfType datatype values }
        ensures { result ≡ record { datatype = datatype; values = values } }
    {
        Bag { datatype, values }
    }

    /// The bag of one value, with at most one allocation.
    ///
    /// Its contract is an equation but for memory.
    pub fn of_one(alloc: Global, value: Value) -> Result<Bag, AllocError>
        ensures { IfOk result (λ b. b ≡ record { datatype = datatype_of value; values = value ∷ [] }) }
    {
        let datatype = value.datatype();
        let values = Items::of_one(alloc, value)?;
        Ok(Bag { datatype, values })
    }

    /// The type of the values.
    ///
    /// Its contract is an equation.
    pub fn datatype(&self) -> DataType
        ensures { result ≡ self.now.datatype }
    {
        self.datatype
    }

    /// The values, which all have the bag's type.
    ///
    /// Its contract is an equation.
    pub fn values(&self) -> &[Value]
        ensures value { result.now ≡ self.now.values }
        ensures types { AllOfType self.now.datatype self.now.values }
    {
        self.values.as_slice()
    }

    /// The values as a list, which is moved and not copied.
    ///
    /// Its contract is an equation.
    pub fn into_values(self) -> Items<Value>
        ensures value { result ≡ self.values }
        ensures types { AllOfType self.datatype self.values }
    {
        let Bag {
            datatype: _,
            values,
        } = self;
        values
    }

    /// How many values there are.
    ///
    /// Its contract is an equation.
    pub fn len(&self) -> usize
        ensures { result ≡ length self.now.values }
    {
        self.values.len()
    }

    /// Whether there is no value.
    ///
    /// Its contract is an equation.
    pub fn is_empty(&self) -> bool
        ensures { IsTrue result ↔ (self.now.values ≡ []) }
    {
        self.values.is_empty()
    }

    /// Puts a value of the bag's type last. After a refusal the bag is as before.
    ///
    /// Its contract is an equation but for memory.
    pub fn push(&mut self, value: Value) -> Result<(), AllocError>
        requires { datatype_of value ≡ self.old.datatype }
        ensures ok { OnOk result (self.new ≡ record self.old { values = self.old.values ++ value ∷ [] }) }
        ensures err { OnErr result (self.new ≡ self.old) }
    {
        self.values.push(value)
    }

    /// An equal bag. The copy of an empty bag takes no memory, so it isn't refused.
    ///
    /// Its contract is an equation but for memory.
    pub fn copy(&self, alloc: Global) -> Result<Bag, AllocError>
        ensures value { IfOk result (λ b. b ≡ self.now) }
        ensures memory { OnErr result (¬ (self.now.values ≡ [])) }
    {
        let mut copy = Bag::new(alloc, self.datatype);
        for value in self.values.as_slice() {
            copy.push(value.copy(alloc)?)?;
        }
        Ok(copy)
    }
}
