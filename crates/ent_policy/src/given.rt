//! Obligation and advice expressions: what a rule, a policy or a policy set gives along with its decision.

ghost use Rattle.std.specs.Prelude.{◌≡◌, []};

use crate::document::Effect;
use crate::expression::Expression;
use ent_values::{Items, Text};
use std::alloc::Global;

/// Names an attribute and computes its values (section 5.41): a value gives one assignment, a bag one for each value in
/// it.
#[derive(PartialEq, Eq, Drop)]
pub struct AssignmentExpression {
    pub attribute: Text,
    pub category: Option<Text>,
    pub issuer: Option<Text>,
    pub expression: Expression,
}

/// An obligation or an advice as it is written (sections 5.39 and 5.40).
#[derive(PartialEq, Eq, Drop)]
pub struct GivenExpression {
    pub id: Text,
    /// The decision under which it is given: `FulfillOn` of an obligation, `AppliesTo` of advice.
    pub effect: Effect,
    pub assignments: Items<AssignmentExpression>,
}

/// The obligations and the advice that stand in a rule, a policy or a policy set, each in document order (sections 5.37
/// and 5.38).
#[derive(PartialEq, Eq, Drop)]
pub struct GivenExpressions {
    pub obligations: Items<GivenExpression>,
    pub advice: Items<GivenExpression>,
}

impl GivenExpressions {
    /// No obligation and no advice, for which nothing is allocated.
    ///
    /// Its contract is an equation.
    pub fn none(alloc: Global) -> GivenExpressions
        ensures obligations { result.obligations ≡ [] }
        ensures advice { result.advice ≡ [] }
    {
        GivenExpressions {
            obligations: Items::new(alloc),
            advice: Items::new(alloc),
        }
    }
}
