//! Equal obligation and advice expressions.

ghost use Rattle.std.specs.Prelude.{◌≡◌, IfOk};

use crate::copied::{Copied, copied_all, copied_text};
use crate::expression::copied_expression;
use ent_policy::{AssignmentExpression, GivenExpression, GivenExpressions};
use std::alloc::{AllocError, Global};

impl Copied for AssignmentExpression {
    fn copied(&self, alloc: Global) -> Result<AssignmentExpression, AllocError> {
        Ok(AssignmentExpression {
            attribute: self.attribute.copy(alloc)?,
            category: copied_text(alloc, &self.category)?,
            issuer: copied_text(alloc, &self.issuer)?,
            expression: copied_expression(alloc, &self.expression)?,
        })
    }
}

impl Copied for GivenExpression {
    fn copied(&self, alloc: Global) -> Result<GivenExpression, AllocError> {
        Ok(GivenExpression {
            id: self.id.copy(alloc)?,
            effect: self.effect,
            assignments: copied_all(alloc, self.assignments.as_slice())?,
        })
    }
}

// Equal obligations and advice.
pub(crate) fn copied_given(
    alloc: Global,
    given: &GivenExpressions,
) -> Result<GivenExpressions, AllocError>
    ensures { IfOk result (λ copy. copy ≡ given.now) }
{
    Ok(GivenExpressions {
        obligations: copied_all(alloc, given.obligations.as_slice())?,
        advice: copied_all(alloc, given.advice.as_slice())?,
    })
}
