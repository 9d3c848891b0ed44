//! What is measured of expressions: how many nodes they have, how deep they are, and their types.

ghost use Rattle.std.specs.Prelude.{◌≡◌, ◌+◌, IfOk, min, option_map};
ghost use Rattle.ent_policy.specs.proofs_only.Measure.{AreMeasured, IsTable, found, measured_with};
ghost use Rattle.ent_policy.specs.Typing.{held, is_boolean};

use crate::document::Policy;
use crate::expression::Expression;
use crate::variables::ordered;
use ent_functions::ArgType;
use ent_values::DataType;
use std::alloc::{AllocError, Global};
use std::collections::BTreeMap;

/// Depths are measured up to this number, which is one more than an expression or a policy set may have.
pub(crate) const TOO_DEEP: usize = 17;

/// Counts go up to this number, which is one more than a document may have nodes.
pub(crate) const TOO_MANY: usize = 65_537;

/// What is measured of an expression: its nodes up to `TOO_MANY`, its depth up to `TOO_DEEP`, and its type, where it
/// has one.
#[derive(Clone, Copy, Drop)]
pub(crate) struct Measured {
    pub(crate) nodes: usize,
    pub(crate) depth: usize,
    pub(crate) datatype: Option<ArgType>,
}

/// What is measured of arguments: their nodes together, the depth of the deepest, and their types, if each has one.
#[derive(Drop)]
struct Arguments {
    nodes: usize,
    depth: usize,
    types: Option<Vec<ArgType>>,
}

/// The sum of two counts, up to `TOO_MANY`.
pub(crate) fn added(a: usize, b: usize) -> usize
    ensures { result ≡ min 65537 (a + b) }
{
    a.saturating_add(b).min(TOO_MANY)
}

/// One more than a depth, up to `TOO_DEEP`.
pub(crate) fn deeper(depth: usize) -> usize
    ensures { result ≡ min 17 (1 + depth) }
{
    depth.saturating_add(1).min(TOO_DEEP)
}

/// Whether it is the type of one boolean.
pub(crate) fn is_boolean(given: Option<ArgType>) -> bool
    ensures { result ≡ is_boolean given }
{
    match given {
        Some(ArgType::One(DataType::Boolean)) => true,
        _ => false,
    }
}

/// The type, if a variable may have it.
pub(crate) fn held(given: Option<ArgType>) -> Option<ArgType>
    ensures { result ≡ held given }
{
    match given {
        Some(ArgType::One(datatype)) => Some(ArgType::One(datatype)),
        Some(ArgType::Many(datatype)) => Some(ArgType::Many(datatype)),
        Some(ArgType::Fun(_)) | None => None,
    }
}

/// What is measured of a variable, nothing where it isn't known.
fn found(table: &BTreeMap<&str, Measured>, id: &str) -> Measured
    ensures { result ≡ found table.now id.now }
{
    match table.get(id) {
        Some(measured) => *measured,
        None => Measured {
            nodes: 0,
            depth: 0,
            datatype: None,
        },
    }
}

/// What is measured of an expression, where the table has what was measured of variables.
#[cycle(measure)]
#[tactic(auto, using(crate::proofs::Measures::measured_apply))]
pub(crate) fn measure(
    alloc: Global,
    table: &BTreeMap<&str, Measured>,
    expression: &Expression,
) -> Result<Measured, AllocError>
    ensures { IfOk result (λ m. m ≡ measured_with (found table.now) expression.now) }
{
    let datatype = match expression {
        Expression::Value(value) => ArgType::One(value.datatype()),
        Expression::Designator(designator) => ArgType::Many(designator.datatype),
        Expression::Function(function) => ArgType::Fun(*function),
        Expression::Variable(id) => {
            let variable = found(table, id.as_str());
            return Ok(Measured {
                nodes: added(1, variable.nodes),
                depth: variable.depth.min(TOO_DEEP),
                datatype: variable.datatype,
            });
        }
        Expression::Apply(function, arguments) => {
            let inside = all_measured(alloc, table, arguments.as_slice())?;
            let datatype = match &inside.types {
                None => None,
                Some(types) => function.result_type(types.as_slice()),
            };
            return Ok(Measured {
                nodes: added(1, inside.nodes),
                depth: deeper(inside.depth),
                datatype,
            });
        }
    };
    Ok(Measured {
        nodes: 1,
        depth: 1,
        datatype: Some(datatype),
    })
}

/// What is measured of arguments.
#[cycle(measure)]
fn all_measured(
    alloc: Global,
    table: &BTreeMap<&str, Measured>,
    arguments: &[Expression],
) -> Result<Arguments, AllocError>
    ensures { IfOk result (λ a. AreMeasured (found table.now) arguments.now a.nodes a.depth
        (option_map (λ v. v.items) a.types)) }
{
    let mut nodes = 0;
    let mut depth = 0;
    let mut types = Vec::with_capacity(alloc, arguments.len())?;
    let mut typed = true;
    for argument in arguments {
        let one = measure(alloc, table, argument)?;
        nodes = added(nodes, one.nodes);
        depth = one.depth.max(depth);
        match one.datatype {
            Some(datatype) => types.push(datatype)?,
            None => typed = false,
        }
    }
    let types = if typed { Some(types) } else { None };
    Ok(Arguments {
        nodes,
        depth,
        types,
    })
}

/// What is measured of the variables of a policy; or `None`, if one is defined twice, not at all, or through itself.
pub(crate) fn table(
    alloc: Global,
    policy: &Policy,
) -> Result<Option<BTreeMap<&str, Measured>>, AllocError>
    ensures { IfOk result (λ table. IsTable policy.now table) }
{
    let Some(order) = ordered(alloc, policy)? else {
        return Ok(None);
    };
    let mut table = BTreeMap::new(alloc);
    for definition in order.as_slice() {
        let mut one = measure(alloc, &table, &definition.expression)?;
        one.datatype = held(one.datatype);
        table.insert(definition.id.as_str(), one)?;
    }
    Ok(Some(table))
}
