//! The assignments of obligations and advice.

ghost use Rattle.std.specs.Prelude.{◌≡◌, ◌++◌, IfOk, OnOk, Ok, length, map, true};
ghost use Rattle.std.specs.List.{list_all};
ghost use Rattle.ent_policy.specs.Typing.{assignment_is_typed};
ghost use Rattle.ent_walk.specs.proofs_only.Comes.{Adds, Comes, in_walk};
ghost use Rattle.ent_walk.specs.Given.{assigned, assignment_of, assignment_part, given_in_turn, joined};
ghost use Rattle.ent_walk.specs.proofs_only.Given.{added, joined_with};
ghost use Rattle.ent_walk.specs.proofs_only.Typed.{is_held};

use crate::evaluated::Evaluated;
use crate::walk::Walk;
use ent_functions::Arg;
use ent_policy::{AssignmentExpression, VariableDefinition};
use ent_request::{Assignment, LookUps, Status, copied_text};
use ent_values::{Items, Value};
use std::alloc::{AllocError, Global};

impl<L: LookUps> Walk<'_, L> {
    // Assignments, up to the first that is Indeterminate, whose status is given.
    pub(crate) fn assignments(
        &mut self,
        definitions: &[VariableDefinition],
        expressions: &[AssignmentExpression],
    ) -> Result<Result<Items<Assignment>, Status>, AllocError>
        requires { list_all (assignment_is_typed definitions.now) expressions.now ≡ true }
        ensures comes { IfOk result (Comes
            (given_in_turn (in_walk L.looks self.old assignment_part definitions.now) expressions.now)
            self.old self.new) }
    {
        let mut assignments = Items::with_capacity(self.alloc, expressions.len())?;
        for expression in expressions {
            let stopped = self.assign(definitions, expression, &mut assignments)?;
            if let Some(status) = stopped {
                return Ok(Err(status));
            }
        }
        Ok(Ok(assignments))
    }

    // One more. The status is given of one that is Indeterminate.
    #[tactic(auto, unfolding(ent_policy::specs::Typing::assignment_is_typed))]
    fn assign(
        &mut self,
        definitions: &[VariableDefinition],
        expression: &AssignmentExpression,
        assignments: &mut Items<Assignment>,
    ) -> Result<Option<Status>, AllocError>
        requires { assignment_is_typed definitions.now expression.now ≡ true }
        ensures value { IfOk result (λ s. added assignments.new s ≡ joined_with assignments.old
            (in_walk L.looks self.old assignment_part definitions.now expression.now)) }
        ensures notes { OnOk result (Adds
            (in_walk L.looks self.old assignment_part definitions.now expression.now).notes
            self.old self.new) }
    {
        let evaluated = self.expression(definitions, definitions.len(), &expression.expression)?;
        add_assigned(self.alloc, expression, evaluated, assignments)
    }
}

// Adds what an assignment gives. The status is given of one that is Indeterminate.
fn add_assigned(
    alloc: Global,
    expression: &AssignmentExpression,
    evaluated: Evaluated,
    assignments: &mut Items<Assignment>,
) -> Result<Option<Status>, AllocError>
    requires { is_held evaluated ≡ true }
    ensures { IfOk result (λ s. added assignments.new s ≡ joined (Ok assignments.old) (assigned expression.now evaluated)) }
{
    match evaluated {
        Evaluated::Indeterminate(status) => Ok(Some(status)),
        Evaluated::Known(Arg::One(value)) => {
            assignments.push(assignment_of(alloc, expression, value)?)?;
            Ok(None)
        }
        Evaluated::Known(Arg::Many(bag)) => {
            add_values(alloc, expression, bag.values(), assignments)?;
            Ok(None)
        }
        Evaluated::Known(Arg::Fun(_)) => unreachable!(),
    }
}

// Adds an assignment of each value.
fn add_values(
    alloc: Global,
    expression: &AssignmentExpression,
    values: &[Value],
    assignments: &mut Items<Assignment>,
) -> Result<(), AllocError>
    ensures { OnOk result (assignments.new ≡ assignments.old ++ map (assignment_of expression.now) values.now) }
{
    for value in values {
        assignments.push(assignment_of(alloc, expression, value.copy(alloc)?)?)?;
    }
    Ok(())
}

// The assignment of a value.
fn assignment_of(
    alloc: Global,
    expression: &AssignmentExpression,
    value: Value,
) -> Result<Assignment, AllocError>
    ensures { IfOk result (λ a. a ≡ assignment_of expression.now value) }
{
    Ok(Assignment {
        attribute: expression.attribute.copy(alloc)?,
        category: copied_text(alloc, &expression.category)?,
        issuer: copied_text(alloc, &expression.issuer)?,
        value,
    })
}
