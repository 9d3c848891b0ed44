//! The request's own values for a designator as a bag, and what is told of them without one.

ghost use Rattle.std.specs.Prelude.{◌≡◌, ◌++◌, IfOk, OnOk, option_copied};
ghost use Rattle.ent_values.specs.Bags.{AllOfType};
ghost use Rattle.ent_functions.specs.Sets.{is_among};
ghost use Rattle.ent_request.specs.Own.{is_empty, own_values, sole_value};
ghost use Rattle.ent_request.specs.proofs_only.Sought.{designator_of, values_of};

use crate::lent_bag::LentBag;
use crate::own::{Sought, attributes_in, own_values, values_in};
use crate::request::{Category, Request};
use ent_policy::Designator;
use ent_values::{Bag, DataType, Value};
use std::alloc::{AllocError, Global};

// The request's own values for a designator. They are copied only where they lie in several attributes.
pub(crate) fn own_bag<'a>(
    alloc: Global,
    request: &'a Request,
    designator: &Designator,
) -> Result<LentBag<'a>, AllocError>
    ensures { IfOk result (λ b. b ≡ record {
      datatype = designator.now.datatype;
      values = own_values designator.now request.now;
    }) }
{
    let sought = Sought::of(designator);
    match own_values(request, &sought) {
        None => LentBag::owned(alloc, gathered(alloc, request, &sought)?),
        Some(values) => Ok(LentBag::lying(sought.datatype, values)),
    }
}

// Copies of values, as a bag.
pub(crate) fn copied(alloc: Global, datatype: DataType, values: &[Value]) -> Result<Bag, AllocError>
    requires { AllOfType datatype values.now }
    ensures { IfOk result (λ b. b ≡ record { datatype = datatype; values = values.now }) }
{
    let mut bag = Bag::new(alloc, datatype);
    add_copies(alloc, values, &mut bag)?;
    Ok(bag)
}

// Copies of the request's own values, as a bag.
fn gathered(alloc: Global, request: &Request, sought: &Sought<'_>) -> Result<Bag, AllocError>
    ensures { IfOk result (λ b. b ≡ record {
      datatype = sought.now.datatype;
      values = own_values (designator_of sought.now) request.now;
    }) }
{
    let mut bag = Bag::new(alloc, sought.datatype);
    for category in request.categories.as_slice() {
        add_of(alloc, category, sought, &mut bag)?;
    }
    Ok(bag)
}

// Adds copies of those in one category.
fn add_of(
    alloc: Global,
    category: &Category,
    sought: &Sought<'_>,
    bag: &mut Bag,
) -> Result<(), AllocError>
    requires { bag.old.datatype ≡ sought.now.datatype }
    ensures { OnOk result (bag.new ≡ record {
      datatype = bag.old.datatype;
      values = bag.old.values ++ values_of (designator_of sought.now) category.now;
    }) }
{
    for attribute in attributes_in(sought.category, category) {
        add_copies(alloc, values_in(attribute, sought), bag)?;
    }
    Ok(())
}

// Adds copies of values.
fn add_copies(alloc: Global, values: &[Value], bag: &mut Bag) -> Result<(), AllocError>
    requires { AllOfType bag.old.datatype values.now }
    ensures { OnOk result (bag.new ≡ record { datatype = bag.old.datatype; values = bag.old.values ++ values.now }) }
{
    for value in values {
        bag.push(value.copy(alloc)?)?;
    }
    Ok(())
}

/// Whether a request has no values of its own.
///
/// Its contract is an equation.
pub fn lacks(request: &Request, sought: &Sought<'_>) -> bool
    ensures { result ≡ is_empty (own_values (designator_of sought.now) request.now) }
{
    match own_values(request, sought) {
        Some([]) => true,
        Some(_) => false,
        None => false,
    }
}

/// Whether a value is one of several.
///
/// Its contract is an equation.
pub fn is_among(value: &Value, values: &[Value]) -> bool
    ensures { result ≡ is_among value.now values.now }
{
    for other in values {
        if other == value {
            return true;
        }
    }
    false
}

/// The only one of a request's own values, if there is exactly one.
///
/// Its contract is an equation.
pub fn only_own<'a>(request: &'a Request, sought: &Sought<'_>) -> Option<&'a Value>
    ensures { option_copied result ≡ sole_value (own_values (designator_of sought.now) request.now) }
{
    match own_values(request, sought)? {
        [only] => Some(only),
        _ => None,
    }
}

/// Whether there is no value.
///
/// Its contract is an equation.
pub(crate) fn is_empty(values: &[Value]) -> bool
    ensures { result ≡ is_empty values.now }
{
    match values {
        [] => true,
        _ => false,
    }
}
