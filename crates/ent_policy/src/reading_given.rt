//! From obligations and advice as read to those that are stored.

ghost use Rattle.std.specs.Prelude.{◌≡◌, IfOk};
ghost use Rattle.ent_policy.specs.Reading.{given_read};

use crate::first::first_of;
use crate::given::{AssignmentExpression, GivenExpression, GivenExpressions};
use crate::raw::{RawAssignment, RawGivenExpression, RawGivenExpressions};
use crate::read::{Read, Readable, each, made};
use crate::reading::expression;
use std::alloc::{AllocError, Global};

impl Readable<AssignmentExpression> for RawAssignment {
    ghost use Rattle.ent_policy.specs.Reading.{assignment_read};

    ghost what = { assignment_read };

    #[tactic(auto, unfolding(crate::specs::Reading::assignment_read))]
    fn read(self, alloc: Global) -> Result<Read<AssignmentExpression>, AllocError> {
        let RawAssignment {
            attribute,
            category,
            issuer,
            expression: meant,
        } = self;
        Ok(made(
            expression(alloc, meant)?,
            move |expression| AssignmentExpression {
                attribute,
                category,
                issuer,
                expression,
            },
        ))
    }
}

impl Readable<GivenExpression> for RawGivenExpression {
    ghost use Rattle.ent_policy.specs.Reading.{given_expression_read};

    ghost what = { given_expression_read };

    #[tactic(auto, unfolding(crate::specs::Reading::given_expression_read))]
    fn read(self, alloc: Global) -> Result<Read<GivenExpression>, AllocError> {
        let RawGivenExpression {
            id,
            effect,
            assignments: meant,
        } = self;
        Ok(made(
            each(alloc, meant)?,
            move |assignments| GivenExpression {
                id,
                effect,
                assignments,
            },
        ))
    }
}

/// Obligations and advice.
#[tactic(auto, unfolding(crate::specs::Reading::given_read))]
pub(crate) fn given(
    alloc: Global,
    raw: RawGivenExpressions,
) -> Result<Read<GivenExpressions>, AllocError>
    ensures { IfOk result (λ r. r ≡ given_read raw) }
{
    let obligations = each(alloc, raw.obligations)?;
    let advice = each(alloc, raw.advice)?;
    Ok(Read {
        fault: first_of(&[obligations.fault, advice.fault]),
        value: GivenExpressions {
            obligations: obligations.value,
            advice: advice.value,
        },
    })
}
