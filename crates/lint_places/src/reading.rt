//! The parts of a document, read one after another.

ghost use Rattle.std.specs.Prelude.{◌≡◌, codes, map};
ghost use Rattle.ent_policy.specs.Gives.{Gives};
ghost use Rattle.ent_polform.specs.Form.{child_of, definition_of, rule_of};
ghost use Rattle.ent_polform.specs.Given.{assignment_of, given_by};
ghost use Rattle.ent_polform.specs.Targets.{match_of, one_all_of, one_any_of};
ghost use Rattle.lint_places.specs.Told.{each};

use ent_json::JsonTree;
use ent_polform::{
    raw_all_of, raw_any_of, raw_assignment, raw_child, raw_definition, raw_given, raw_match,
    raw_rule,
};
use ent_policy::{
    CheckFault, RawAllOf, RawAnyOf, RawAssignment, RawChild, RawGivenExpression, RawMatch, RawRule,
    RawVariableDefinition,
};
use ent_values::Items;
use std::alloc::Global;

/// What is read of a JSON value as it stands in a list.
pub(crate) trait ReadableItem: Drop {
    ghost use Rattle.std.specs.Prelude.{Result};
    ghost use Rattle.serde_json.specs.Data.{Data};
    ghost use Rattle.ent_policy.specs.declared.fault.DocFault.{DocFault};

    ghost reads: { Data → Result Self DocFault };

    /// Reads one. The only fault that is found here is one of its form.
    fn read<J: JsonTree>(alloc: Global, json: &J) -> Result<Self, CheckFault>
        ensures { Gives result (reads (J.content json.now)) };
}

/// Each of some, as read.
pub(crate) fn all<R: ReadableItem, J: JsonTree>(
    alloc: Global,
    values: &[J],
) -> Result<Items<R>, CheckFault>
    ensures { Gives result (each R.reads (map J.content values.now)) }
{
    let mut all = Items::with_capacity(alloc, values.len())?;
    for value in values {
        all.push(R::read(alloc, value)?)?;
    }
    Ok(all)
}

impl ReadableItem for RawVariableDefinition {
    ghost reads = { definition_of };

    fn read<J: JsonTree>(alloc: Global, json: &J) -> Result<RawVariableDefinition, CheckFault> {
        raw_definition(alloc, json)
    }
}

impl ReadableItem for RawChild {
    ghost reads = { child_of };

    fn read<J: JsonTree>(alloc: Global, json: &J) -> Result<RawChild, CheckFault> {
        raw_child(alloc, json)
    }
}

impl ReadableItem for RawRule {
    ghost reads = { rule_of };

    fn read<J: JsonTree>(alloc: Global, json: &J) -> Result<RawRule, CheckFault> {
        raw_rule(alloc, json)
    }
}

impl ReadableItem for RawAnyOf {
    ghost reads = { one_any_of };

    fn read<J: JsonTree>(alloc: Global, json: &J) -> Result<RawAnyOf, CheckFault> {
        raw_any_of(alloc, json)
    }
}

impl ReadableItem for RawAllOf {
    ghost reads = { one_all_of };

    fn read<J: JsonTree>(alloc: Global, json: &J) -> Result<RawAllOf, CheckFault> {
        raw_all_of(alloc, json)
    }
}

impl ReadableItem for RawMatch {
    ghost reads = { match_of };

    fn read<J: JsonTree>(alloc: Global, json: &J) -> Result<RawMatch, CheckFault> {
        raw_match(alloc, json)
    }
}

impl ReadableItem for RawAssignment {
    ghost reads = { assignment_of };

    fn read<J: JsonTree>(alloc: Global, json: &J) -> Result<RawAssignment, CheckFault> {
        raw_assignment(alloc, json)
    }
}

/// Each of some obligation expressions or advice expressions, as read, by the keys of their ids and of their effects.
pub(crate) fn all_given<J: JsonTree>(
    alloc: Global,
    values: &[J],
    id_key: &str,
    effect_key: &str,
) -> Result<Items<RawGivenExpression>, CheckFault>
    ensures { Gives result (each (given_by id_key.now effect_key.now) (map J.content values.now)) }
{
    let mut all = Items::with_capacity(alloc, values.len())?;
    for value in values {
        all.push(raw_given(alloc, value, id_key, effect_key)?)?;
    }
    Ok(all)
}
