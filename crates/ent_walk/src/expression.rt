//! What expressions come to.

ghost use Rattle.std.specs.Prelude.{◌≡◌, IfNone, IfOk, IfSome, IsSome, MatchResult, OnOk, Some, map, true, false};
ghost use Rattle.std.specs.Option.{option_copied};
ghost use Rattle.ent_functions.specs.Applied.{applied};
ghost use Rattle.ent_functions.specs.Arguments.{type_of_arg};
ghost use Rattle.ent_functions.specs.Types.{boolean, result_type_of};
ghost use Rattle.ent_functions.specs.declared.types.ArgType.TheVariants as types;
ghost use Rattle.ent_policy.specs.Typing.{variable_type};
ghost use Rattle.ent_policy.specs.Variables.{definition_of};
ghost use Rattle.ent_walk.specs.proofs_only.Comes.{Adds, Comes, in_walk};
ghost use Rattle.ent_walk.specs.Expression.{designated, evaluated_of, fault_in, is_result, meaning, settles};
ghost use Rattle.ent_request.specs.Part.{mapped};
ghost use Rattle.ent_request.specs.Sources.{demanded};
ghost use Rattle.ent_walk.specs.proofs_only.Expression.{apply_part};
ghost use Rattle.ent_walk.specs.Expression.{variable_part};
ghost use Rattle.ent_walk.specs.declared.evaluated.Evaluated.TheVariants.{Known};
ghost use Rattle.ent_walk.specs.proofs_only.Typed.{HasType, Tests, apply_type, type_of};
ghost use Rattle.ent_trace.specs.proofs_only.Noted.{asked_by};
ghost use Rattle.ent_walk.specs.proofs_only.Uncopied.{ComesOf, ComesOfOnly, HasItsType, IsTested, IsTyped};
ghost use Rattle.ent_walk.specs.proofs_only.Uncopied.{any, equal_part, member_part, uncopied_part};
ghost use Rattle.ent_walk.specs.proofs_only.Uncopied.{uncopied_type};

use crate::evaluated::Evaluated;
use crate::uncopied::{Sole, Uncopied, any, member, only_in, truth};
use crate::walk::Walk;
use ent_functions::{Arg, Fault, Function, apply};
use ent_policy::{Designator, Expression, VariableDefinition};
use ent_request::{LookUps, Reason, Status};
use ent_values::{Items, Text, Value};
use std::alloc::AllocError;

impl<L: LookUps> Walk<'_, L> {
    // An expression among the definitions of its policy, through at most so many references. It has its type.
    #[cycle(expression)]
    pub(crate) fn expression(
        &mut self,
        definitions: &[VariableDefinition],
        references: usize,
        expression: &Expression,
    ) -> Result<Evaluated, AllocError>
        requires typed { IsSome (type_of definitions.now references expression.now) }
        ensures comes { IfOk result (Comes
            (in_walk L.looks self.old meaning definitions.now references expression.now)
            self.old self.new) }
        ensures typed { IfOk result (λ v. HasType (type_of definitions.now references expression.now) v) }
    {
        match expression {
            Expression::Value(value) => Ok(Evaluated::Known(Arg::One(value.copy(self.alloc)?))),
            Expression::Designator(designator) => self.designator(designator),
            Expression::Variable(id) => self.variable(definitions, references, id),
            Expression::Apply(function, arguments) => self.application(
                definitions,
                references,
                *function,
                arguments.as_slice(),
            ),
            Expression::Function(function) => Ok(Evaluated::Known(Arg::Fun(*function))),
        }
    }

    // A variable: the expression of its definition, with one reference less.
    #[cycle(expression)]
    fn variable(
        &mut self,
        definitions: &[VariableDefinition],
        references: usize,
        id: &Text,
    ) -> Result<Evaluated, AllocError>
        requires typed { IsSome (variable_type definitions.now references id.now) }
        ensures comes { IfOk result (Comes
            (in_walk L.looks self.old variable_part definitions.now references id.now)
            self.old self.new) }
        ensures typed { IfOk result (λ v. HasType (variable_type definitions.now references id.now) v) }
    {
        match definition_of(definitions, id) {
            None => unreachable!(),
            Some(definition) => self.expression(
                definitions,
                references - 1,
                &definition.expression,
            ),
        }
    }

    // A function of its arguments.
    #[cycle(expression)]
    fn application(
        &mut self,
        definitions: &[VariableDefinition],
        references: usize,
        function: Function,
        arguments: &[Expression],
    ) -> Result<Evaluated, AllocError>
        requires typed { IsSome (apply_type definitions.now references function arguments.now) }
        ensures comes { IfOk result (Comes
            (in_walk L.looks self.old apply_part definitions.now references function arguments.now)
            self.old self.new) }
        ensures typed { IfOk result (λ v. HasType (apply_type definitions.now references function arguments.now) v) }
    {
        match self.uncopied(function, arguments)? {
            Some(value) => Ok(value),
            None => self.of_each(definitions, references, function, arguments),
        }
    }

    // The same, whose arguments are evaluated up to the first that is the result.
    #[cycle(expression)]
    fn of_each(
        &mut self,
        definitions: &[VariableDefinition],
        references: usize,
        function: Function,
        arguments: &[Expression],
    ) -> Result<Evaluated, AllocError>
        requires typed { IsSome (apply_type definitions.now references function arguments.now) }
        ensures comes { IfOk result (Comes
            (in_walk L.looks self.old apply_part definitions.now references function arguments.now)
            self.old self.new) }
        ensures typed { IfOk result (λ v. HasType (apply_type definitions.now references function arguments.now) v) }
    {
        let mut evaluated = Items::new(self.alloc);
        for argument in arguments {
            let value = self.expression(definitions, references, argument)?;
            match argument_of(function, value) {
                Err(value) => return Ok(value),
                Ok(argument) => evaluated.push(argument)?,
            }
        }
        self.applied_to(function, evaluated.as_slice())
    }

    // A function that needs no copy of its arguments, if it is one. One-and-only is left, with nothing noted, unless
    // there is one value.
    fn uncopied(
        &mut self,
        function: Function,
        arguments: &[Expression],
    ) -> Result<Option<Evaluated>, AllocError>
        requires { IsTyped function arguments.now }
        ensures comes { IfOk result (λ o. IfSome o
            (in_walk L.looks self.old ComesOf function arguments.now self.old self.new)) }
        ensures typed { IfOk result (λ o. IfSome o (HasItsType function arguments.now)) }
        ensures left { IfOk result (λ o. IfNone o (self.new ≡ self.old)) }
    {
        match Uncopied::of(self.lender.request(), function, arguments) {
            None => Ok(None),
            Some(uncopied) => self.told(uncopied),
        }
    }

    // What such a function comes to.
    fn told(&mut self, uncopied: Uncopied<'_>) -> Result<Option<Evaluated>, AllocError>
        requires { IsTested uncopied }
        ensures comes { IfOk result (λ o. IfSome o (Comes
            (in_walk L.looks self.old uncopied_part uncopied.entry) self.old self.new)) }
        ensures typed { IfOk result (λ o. IfSome o (HasType (Some (uncopied_type uncopied.entry)))) }
        ensures left { IfOk result (λ o. IfNone o (self.new ≡ self.old)) }
    {
        match uncopied {
            Uncopied::Equal(first, second) => Ok(Some(self.are_equal(&first, &second)?)),
            Uncopied::IsIn(sole, designator) => Ok(Some(self.is_in(&sole, designator)?)),
            Uncopied::OneAndOnly(_, designator) => self.only(designator),
            Uncopied::AnyOf(function, literal, designator) => {
                Ok(Some(self.is_any(function, literal, designator)?))
            }
        }
    }

    // The only value of a designator, if there is exactly one: else nothing is noted.
    fn only(&mut self, designator: &Designator) -> Result<Option<Evaluated>, AllocError>
        ensures comes { IfOk result (λ o. IfSome o
            (in_walk L.looks self.old ComesOfOnly designator.now self.old self.new)) }
        ensures typed { IfOk result (λ o. IfSome o (HasType (Some (types.One designator.now.datatype)))) }
        ensures left { IfOk result (λ o. IfNone o (self.new ≡ self.old)) }
    {
        let bag = self.lender.bag(self.alloc, designator)?;
        match only_in(self.alloc, &bag)? {
            None => Ok(None),
            Some(value) => {
                self.notes.note_values(self.alloc, designator)?;
                Ok(Some(Evaluated::Known(Arg::One(value))))
            }
        }
    }

    // Whether a function is True of a literal and one of the values of a designator.
    fn is_any(
        &mut self,
        function: Function,
        literal: &Value,
        designator: &Designator,
    ) -> Result<Evaluated, AllocError>
        requires { Tests function literal.now designator.now.datatype }
        ensures comes { IfOk result (Comes
            (mapped (any function literal.now designator.now)
            (in_walk L.looks self.old demanded designator.now)) self.old self.new) }
        ensures typed { IfOk result (λ v. HasType (Some boolean) v) }
    {
        let bag = self.demanded(designator)?;
        any(self.alloc, function, literal, designator, &bag)
    }

    // Is-in of a value and a designator.
    #[tactic(auto, using(crate::proofs::Going::noting_both))]
    fn is_in(&mut self, sole: &Sole<'_>, designator: &Designator) -> Result<Evaluated, AllocError>
        ensures comes { IfOk result (Comes
            (in_walk L.looks self.old member_part sole.now designator.now) self.old self.new) }
        ensures typed { IfOk result (λ v. HasType (Some boolean) v) }
    {
        self.note_sole(sole)?;
        let bag = self.demanded(designator)?;
        Ok(member(sole.value, designator, &bag))
    }

    // Equal of two values.
    #[tactic(auto, using(crate::proofs::Going::noting_both))]
    fn are_equal(&mut self, first: &Sole<'_>, second: &Sole<'_>) -> Result<Evaluated, AllocError>
        ensures comes { IfOk result (Comes (equal_part first.now second.now) self.old self.new) }
        ensures typed { IfOk result (λ v. HasType (Some boolean) v) }
    {
        self.note_sole(first)?;
        self.note_sole(second)?;
        Ok(truth(first.value == second.value))
    }

    // Notes what is asked for a value.
    pub(crate) fn note_sole(&mut self, sole: &Sole<'_>) -> Result<(), AllocError>
        ensures { OnOk result (Adds (asked_by (option_copied sole.now.asked)) self.old self.new) }
    {
        match sole.asked {
            None => Ok(()),
            Some(designator) => self.notes.note_values(self.alloc, designator),
        }
    }

    // A designator.
    fn designator(&mut self, designator: &Designator) -> Result<Evaluated, AllocError>
        ensures comes { IfOk result (Comes
            (in_walk L.looks self.old designated designator.now) self.old self.new) }
        ensures typed { IfOk result (λ v. HasType (Some (types.Many designator.now.datatype)) v) }
    {
        let bag = self.demanded(designator)?;
        if designator.must_be_present && bag.values().is_empty() {
            return Ok(Evaluated::Indeterminate(Status::MissingAttribute));
        }
        Ok(Evaluated::Known(Arg::Many(bag.to_bag(self.alloc)?)))
    }

    // The value of a function of arguments that it takes. A fault is a processing error.
    fn applied_to(&mut self, function: Function, arguments: &[Arg]) -> Result<Evaluated, AllocError>
        requires { IsSome (result_type_of function (map type_of_arg arguments.now)) }
        ensures value { IfOk result (λ v. v ≡ evaluated_of (applied function arguments.now)) }
        ensures typed { IfOk result (λ v. HasType (result_type_of function (map type_of_arg arguments.now)) v) }
        ensures notes { OnOk result (Adds (fault_in function (applied function arguments.now)) self.old self.new) }
    {
        match apply(self.alloc, function, arguments) {
            Ok(outcome) => Ok(Evaluated::Known(outcome)),
            Err(Fault::Memory) => Err(AllocError),
            Err(fault) => {
                self.fail(Reason::Fault(function, fault))?;
                Ok(Evaluated::Indeterminate(Status::ProcessingError))
            }
        }
    }
}

// The definition of that id.
fn definition_of<'a>(
    definitions: &'a [VariableDefinition],
    id: &Text,
) -> Option<&'a VariableDefinition>
    ensures { option_copied result ≡ definition_of definitions.now id.now }
{
    for definition in definitions {
        if definition.id == *id {
            return Some(definition);
        }
    }
    None
}

// An argument, unless it is the result of the function.
fn argument_of(function: Function, value: Evaluated) -> Result<Arg, Evaluated>
    ensures { MatchResult result (λ a. (value ≡ Known a) × (is_result function value ≡ false))
        (λ v. (v ≡ value) × (is_result function value ≡ true)) }
{
    match value {
        Evaluated::Indeterminate(_) => Err(value),
        Evaluated::Known(argument) => {
            if settles(function, &argument) {
                Err(Evaluated::Known(argument))
            } else {
                Ok(argument)
            }
        }
    }
}

// Whether an argument is the result whatever the others are.
fn settles(function: Function, argument: &Arg) -> bool
    ensures { result ≡ settles function argument.now }
{
    match (function, argument) {
        (Function::Or, Arg::One(Value::Boolean(boolean))) => *boolean,
        (Function::And, Arg::One(Value::Boolean(boolean))) => !*boolean,
        _ => false,
    }
}
