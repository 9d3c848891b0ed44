//! Equal expressions.

ghost use Rattle.std.specs.Prelude.{◌≡◌, IfOk};

use crate::copied::{Copied, copied_all, copied_text};
use ent_policy::{Designator, Expression, VariableDefinition};
use ent_values::Items;
use std::alloc::{AllocError, Global};

// An equal designator.
pub(crate) fn copied_designator(
    alloc: Global,
    designator: &Designator,
) -> Result<Designator, AllocError>
    ensures { IfOk result (λ copy. copy ≡ designator.now) }
{
    Ok(Designator {
        category: designator.category.copy(alloc)?,
        attribute: designator.attribute.copy(alloc)?,
        datatype: designator.datatype,
        issuer: copied_text(alloc, &designator.issuer)?,
        must_be_present: designator.must_be_present,
    })
}

// An equal expression.
#[cycle(expression)]
pub(crate) fn copied_expression(
    alloc: Global,
    expression: &Expression,
) -> Result<Expression, AllocError>
    ensures { IfOk result (λ copy. copy ≡ expression.now) }
{
    match expression {
        Expression::Value(value) => Ok(Expression::Value(value.copy(alloc)?)),
        Expression::Designator(designator) => {
            Ok(Expression::Designator(copied_designator(alloc, designator)?))
        }
        Expression::Variable(id) => Ok(Expression::Variable(id.copy(alloc)?)),
        Expression::Apply(function, arguments) => {
            let arguments = copied_expressions(alloc, arguments.as_slice())?;
            Ok(Expression::Apply(*function, arguments))
        }
        Expression::Function(function) => Ok(Expression::Function(*function)),
    }
}

// Equal expressions.
#[cycle(expression)]
fn copied_expressions(
    alloc: Global,
    expressions: &[Expression],
) -> Result<Items<Expression>, AllocError>
    ensures { IfOk result (λ copies. copies ≡ expressions.now) }
{
    let mut copies = Items::with_capacity(alloc, expressions.len())?;
    for expression in expressions {
        copies.push(copied_expression(alloc, expression)?)?;
    }
    Ok(copies)
}

// An equal optional expression.
pub(crate) fn copied_condition(
    alloc: Global,
    condition: &Option<Expression>,
) -> Result<Option<Expression>, AllocError>
    ensures { IfOk result (λ copy. copy ≡ condition.now) }
{
    match condition {
        None => Ok(None),
        Some(expression) => Ok(Some(copied_expression(alloc, expression)?)),
    }
}

impl Copied for VariableDefinition {
    fn copied(&self, alloc: Global) -> Result<VariableDefinition, AllocError> {
        Ok(VariableDefinition {
            id: self.id.copy(alloc)?,
            expression: copied_expression(alloc, &self.expression)?,
        })
    }
}

/// Equal definitions of variables.
///
/// # Errors
///
/// `AllocError` if memory runs out.
///
/// Its contract is an equation but for memory.
pub fn copied_definitions(
    alloc: Global,
    definitions: &[VariableDefinition],
) -> Result<Items<VariableDefinition>, AllocError>
    ensures { IfOk result (λ copies. copies ≡ definitions.now) }
{
    copied_all(alloc, definitions)
}
