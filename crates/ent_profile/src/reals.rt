//! The values of answers and requests are what their types say.

ghost use Rattle.std.specs.List.{AllByRecursion};
ghost use Rattle.ent_values.specs.ReadBack.{IsReal};
ghost use Rattle.ent_profile.specs.proofs_only.Reals.{AttributeIsReal, CategoryIsReal, GivenIsReal};

use ent_request::{Assignment, Attribute, Category, Given};
use ent_values::{Value, value_is_real};

/// Those of assignments.
fn assignments_are_real(assignments: &[Assignment])
    ensures { AllByRecursion (λ a. IsReal a.value) assignments.now }
{
    for assignment in assignments {
        value_is_real(&assignment.value);
    }
}

/// Those of obligations or advice.
pub(crate) fn given_are_real(given: &[Given])
    ensures { AllByRecursion GivenIsReal given.now }
{
    for one in given {
        assignments_are_real(one.assignments.as_slice());
    }
}

/// Values.
fn values_are_real(values: &[Value])
    ensures { AllByRecursion IsReal values.now }
{
    for value in values {
        value_is_real(value);
    }
}

/// Those of attributes.
fn attributes_are_real(attributes: &[Attribute])
    ensures { AllByRecursion AttributeIsReal attributes.now }
{
    for attribute in attributes {
        values_are_real(attribute.bag.values());
    }
}

/// Those of categories.
pub(crate) fn categories_are_real(categories: &[Category])
    ensures { AllByRecursion CategoryIsReal categories.now }
{
    for category in categories {
        attributes_are_real(category.attributes.as_slice());
    }
}
