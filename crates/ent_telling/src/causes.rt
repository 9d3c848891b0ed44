//! What is told of causes: where a part of an answer came to Indeterminate, and what went wrong there.

ghost use Rattle.std.specs.Prelude.{◌≡◌, ◌++◌, OnOk, codes, map, take};
ghost use Rattle.ent_json.specs.Members.{only_member};
ghost use Rattle.ent_json.specs.Text.{tokens_of};
ghost use Rattle.ent_json.specs.proofs_only.Text.{items_tokens_of};
ghost use Rattle.ent_polform.specs.Written.{reference_written};
ghost use Rattle.ent_telling.specs.Causes.{asked_data, cause_data, causes_data, fault_data, fault_word};
ghost use Rattle.ent_telling.specs.Causes.{most_told, untold, what_data};

use crate::attributes::write_issuer;
use crate::paths::{status_text, write_path, write_rule};
use ent_eval::{Asked, Cause, What};
use ent_functions::{Fault, Function};
use ent_json::{JsonText, write_text};
use ent_polform::write_reference_text;
use ent_policy::Reference;
use std::alloc::{AllocError, Global};

/// How many causes are told at most.
const MOST_TOLD: usize = 32;

/// The word of what a function fails by.
fn fault_word(fault: Fault) -> &'static str
    ensures { result.now ≡ fault_word fault }
{
    match fault {
        Fault::DivideByZero => "division-by-zero",
        Fault::Overflow => "integer-overflow",
        Fault::NotSingle => "not-one-value",
        Fault::DateRange => "date-out-of-range",
        Fault::Memory => "out-of-memory",
    }
}

/// Writes what was asked of an attribute.
fn write_asked(out: &mut JsonText, asked: &Asked) -> Result<(), AllocError>
    ensures { OnOk result (out.new ≡ out.old ++ tokens_of (asked_data asked.now)) }
{
    out.begin_object()?;
    write_text(out, "attribute", asked.attribute.as_str())?;
    write_text(out, "category", asked.category.as_str())?;
    write_text(out, "datatype", asked.datatype.uri())?;
    write_issuer(out, &asked.issuer)?;
    out.end_object()
}

/// Writes of which attribute a value is missing.
fn write_missing(out: &mut JsonText, asked: &Asked) -> Result<(), AllocError>
    ensures { OnOk result (out.new ≡ out.old ++ tokens_of (only_member (codes "missing") (asked_data asked.now))) }
{
    out.begin_object()?;
    out.key("missing")?;
    write_asked(out, asked)?;
    out.end_object()
}

/// Writes which function failed, and by what.
fn write_fault(
    alloc: Global,
    out: &mut JsonText,
    function: Function,
    fault: Fault,
) -> Result<(), AllocError>
    ensures { OnOk result (out.new ≡ out.old ++ tokens_of (fault_data function fault)) }
{
    let id = function.id(alloc)?;
    out.begin_object()?;
    write_text(out, "fault", fault_word(fault))?;
    write_text(out, "function", id.as_str())?;
    out.end_object()
}

/// Writes a reference at a key.
fn write_named(
    alloc: Global,
    out: &mut JsonText,
    key: &str,
    reference: &Reference,
) -> Result<(), AllocError>
    ensures { OnOk result (out.new
        ≡ out.old ++ tokens_of (only_member key.now (reference_written reference.now))) }
{
    out.begin_object()?;
    out.key(key)?;
    write_reference_text(alloc, out, reference)?;
    out.end_object()
}

/// Writes what went wrong.
fn write_what(alloc: Global, out: &mut JsonText, what: &What) -> Result<(), AllocError>
    ensures { OnOk result (out.new ≡ out.old ++ tokens_of (what_data what.now)) }
{
    match what {
        What::Missing(asked) => write_missing(out, asked),
        What::Fault(function, fault) => write_fault(alloc, out, *function, *fault),
        What::Unfound(reference) => write_named(alloc, out, "unfound", reference),
        What::TooFar(reference) => write_named(alloc, out, "too_far", reference),
        What::Several => out.string("several"),
        What::Unfit => out.string("unfit"),
    }
}

/// Writes a cause: where it stands, its status, and what went wrong.
fn write_cause(alloc: Global, out: &mut JsonText, cause: &Cause) -> Result<(), AllocError>
    ensures { OnOk result (out.new ≡ out.old ++ tokens_of (cause_data cause.now)) }
{
    out.begin_object()?;
    out.key("path")?;
    write_path(out, cause.path.as_slice())?;
    out.key("rule")?;
    write_rule(out, &cause.rule)?;
    write_text(out, "status", status_text(cause.status))?;
    out.key("what")?;
    write_what(alloc, out, &cause.what)?;
    out.end_object()
}

/// Writes causes, to the end of their list.
fn write_each_cause(alloc: Global, out: &mut JsonText, causes: &[Cause]) -> Result<(), AllocError>
    ensures { OnOk result (out.new ≡ out.old ++ items_tokens_of (map cause_data causes.now)) }
{
    for cause in causes {
        write_cause(alloc, out, cause)?;
    }
    out.end_array()
}

/// The causes that are told.
fn told(causes: &[Cause]) -> &[Cause]
    ensures { result.now ≡ take most_told causes.now }
{
    let count = MOST_TOLD.min(causes.len());
    &causes[..count]
}

/// Writes the list of the first causes, 32 at most, in their order.
///
/// # Errors
///
/// `AllocError` if memory runs out; a front of the list may have been written.
///
/// Its contract is an equation but for memory.
pub fn write_causes(alloc: Global, out: &mut JsonText, causes: &[Cause]) -> Result<(), AllocError>
    ensures { OnOk result (out.new ≡ out.old ++ tokens_of (causes_data causes.now)) }
{
    out.begin_array()?;
    write_each_cause(alloc, out, told(causes))
}

/// How many causes there are besides those that are told.
///
/// Its contract is an equation.
pub fn untold(causes: &[Cause]) -> u64
    ensures { result ≡ untold causes.now }
{
    causes.len().saturating_sub(MOST_TOLD) as u64
}
