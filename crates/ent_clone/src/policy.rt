//! Equal policies.

ghost use Rattle.std.specs.Prelude.{◌≡◌, IfOk};

use crate::copied::{Copied, copied_all};
use crate::expression::copied_condition;
use crate::given::copied_given;
use crate::target::copied_target;
use ent_policy::{Policy, Rule};
use std::alloc::{AllocError, Global};

impl Copied for Rule {
    fn copied(&self, alloc: Global) -> Result<Rule, AllocError> {
        Ok(Rule {
            id: self.id.copy(alloc)?,
            effect: self.effect,
            target: copied_target(alloc, &self.target)?,
            condition: copied_condition(alloc, &self.condition)?,
            given: copied_given(alloc, &self.given)?,
        })
    }
}

/// An equal rule.
///
/// # Errors
///
/// `AllocError` if memory runs out.
///
/// Its contract is an equation but for memory.
pub fn copied_rule(alloc: Global, rule: &Rule) -> Result<Rule, AllocError>
    ensures { IfOk result (λ copy. copy ≡ rule.now) }
{
    rule.copied(alloc)
}

// An equal policy.
pub(crate) fn copied_policy(alloc: Global, policy: &Policy) -> Result<Policy, AllocError>
    ensures { IfOk result (λ copy. copy ≡ policy.now) }
{
    Ok(Policy {
        id: policy.id.copy(alloc)?,
        version: policy.version.copy(),
        algorithm: policy.algorithm,
        target: copied_target(alloc, &policy.target)?,
        variables: copied_all(alloc, policy.variables.as_slice())?,
        rules: copied_all(alloc, policy.rules.as_slice())?,
        given: copied_given(alloc, &policy.given)?,
    })
}
