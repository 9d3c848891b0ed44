//! The reply that tells the dump of a review.

ghost use Rattle.std.specs.Prelude.{◌≡◌, ◌<◌, ◌++◌, IfOk, OnOk, length, map, string_bytes};
ghost use Rattle.ent_finder.specs.Rows.{filled_source, source_at};
ghost use Rattle.ent_finder.specs.Slots.{held, module_at};
ghost use Rattle.ent_eval.specs.LooksOf.{held_by};
ghost use Rattle.ent_json.specs.Text.{tokens_of};
ghost use Rattle.law_rebuild.specs.Rebuilding.{all_documents, all_rows, environment_edits, module_edits, name_edits};
ghost use Rattle.law_rebuild.specs.Rebuilding.{rebuilding, root_edits, source_edits};
ghost use Rattle.ent_dump.specs.Dumped.{dump_data, dump_text};
ghost use Rattle.ent_dump.specs.proofs_only.Walk.{held_edits, line_tokens};

use crate::edits::{
    write_day_line, write_format_line, write_moment_line, write_name_line, write_root_line,
    write_row_line, write_slot_line,
};
use ent_eval::{Environment, Evaluates, Pdp};
use ent_finder::{Attributes, Policies};
use ent_json::JsonText;
use ent_policy::Reference;
use ent_table::{List, Review};
use ent_values::Text;
use std::alloc::{AllocError, Global};

/// Writes the lines of the documents of the module of that number, in the order of their keys.
fn write_module<P: Policies>(
    alloc: Global,
    out: &mut JsonText,
    policies: &P,
    number: usize,
) -> Result<(), AllocError>
    requires { number < length (P.slots policies.now) }
    ensures { OnOk result (out.new
        ≡ out.old ++ line_tokens (module_edits (number, held (module_at (P.slots policies.now) number)))) }
{
    // Each slot has an index.
    let _ = policies.slot_at(number, 0);
    for index in 0..usize::MAX {
        let Some(slot) = policies.slot_at(number, index) else {
            return Ok(());
        };
        write_slot_line(alloc, out, number, slot)?;
    }
    Ok(())
}

/// Writes the lines of all documents, by module and then in the order of their keys.
fn write_policies<P: Policies>(
    alloc: Global,
    out: &mut JsonText,
    policies: &P,
) -> Result<(), AllocError>
    ensures { OnOk result (out.new ≡ out.old ++ line_tokens (all_documents (map held (P.slots policies.now)))) }
{
    for number in 0..policies.len() {
        write_module(alloc, out, policies, number)?;
    }
    Ok(())
}

/// Writes the lines of the rows of the module of that number that aren't empty, in the order of their keys.
fn write_source<A: Attributes>(
    alloc: Global,
    out: &mut JsonText,
    attributes: &A,
    number: usize,
) -> Result<(), AllocError>
    requires { number < length (A.sources attributes.now) }
    ensures { OnOk result (out.new
        ≡ out.old ++ line_tokens (source_edits (number, filled_source (source_at (A.sources attributes.now) number)))) }
{
    // Each row has an index.
    let _ = attributes.row_at(number, 0);
    for index in 0..usize::MAX {
        let Some(row) = attributes.row_at(number, index) else {
            return Ok(());
        };
        write_row_line(alloc, out, number, row)?;
    }
    Ok(())
}

/// Writes the lines of all rows that aren't empty, by module and then in the order of their keys.
fn write_attributes<A: Attributes>(
    alloc: Global,
    out: &mut JsonText,
    attributes: &A,
) -> Result<(), AllocError>
    ensures { OnOk result (out.new ≡ out.old ++ line_tokens (all_rows (map filled_source (A.sources attributes.now)))) }
{
    for number in 0..attributes.len() {
        write_source(alloc, out, attributes, number)?;
    }
    Ok(())
}

/// Writes the line of what is known of the time, unless that is nothing.
fn write_environment(
    alloc: Global,
    out: &mut JsonText,
    environment: Environment,
) -> Result<(), AllocError>
    ensures { OnOk result (out.new ≡ out.old ++ line_tokens (environment_edits environment)) }
{
    match environment {
        Environment::Empty => Ok(()),
        Environment::Day(day) => write_day_line(alloc, out, day),
        Environment::Moment(moment) => write_moment_line(alloc, out, moment),
    }
}

/// Writes the line of the root, if there is one.
fn write_root(alloc: Global, out: &mut JsonText, root: &Option<Reference>) -> Result<(), AllocError>
    ensures { OnOk result (out.new ≡ out.old ++ line_tokens (root_edits root.now)) }
{
    match root {
        None => Ok(()),
        Some(root) => write_root_line(alloc, out, root),
    }
}

/// Writes the lines of the names of a list, in order.
fn write_names(
    alloc: Global,
    out: &mut JsonText,
    list: List,
    names: &[Text],
) -> Result<(), AllocError>
    ensures { OnOk result (out.new ≡ out.old ++ line_tokens (name_edits list names.now)) }
{
    for name in names {
        write_name_line(alloc, out, list, name.as_str())?;
    }
    Ok(())
}

/// Writes the lines of what a decision point holds.
fn write_held<A: Attributes, P: Policies>(
    alloc: Global,
    out: &mut JsonText,
    pdp: &Pdp<A, P>,
) -> Result<(), AllocError>
    ensures { OnOk result (out.new ≡ out.old ++ line_tokens (held_edits (held_by pdp.now))) }
{
    write_policies(alloc, out, pdp.policies())?;
    write_attributes(alloc, out, pdp.attributes())?;
    write_environment(alloc, out, pdp.environment())?;
    write_root(alloc, out, pdp.root())
}

/// Writes the lines of all edits that make a review's state anew.
fn write_edits<E: Evaluates>(
    alloc: Global,
    out: &mut JsonText,
    review: &Review<E>,
) -> Result<(), AllocError>
    ensures { OnOk result (out.new ≡ out.old ++ line_tokens (rebuilding review.now.state)) }
{
    write_held(alloc, out, review.pdp())?;
    write_names(alloc, out, List::People, review.names(List::People))?;
    write_names(alloc, out, List::Actions, review.names(List::Actions))?;
    write_names(alloc, out, List::Resources, review.names(List::Resources))
}

/// Writes the reply that tells the dump of a review.
fn write_dump<E: Evaluates>(
    alloc: Global,
    out: &mut JsonText,
    review: &Review<E>,
    version: u64,
) -> Result<(), AllocError>
    ensures { OnOk result (out.new ≡ out.old ++ tokens_of (dump_data version review.now.state)) }
{
    out.begin_object()?;
    out.key("dump")?;
    out.begin_array()?;
    write_format_line(alloc, out, version)?;
    write_edits(alloc, out, review)?;
    out.end_array()?;
    out.end_object()
}

/// The text of the reply that tells the dump of a review: a list of lines, each a command in compact JSON with its keys
/// in byte order. The first is `format` with the version; the others make the review's state anew where nothing is
/// held, listed or set, in this order: `policy.add` for each document, by module and then by key; `attr.set` for each
/// row that isn't empty, in the same order; `day.set` of a day, or `moment.set` of a moment; `root.set` if there is a
/// root; and `person.add`, `action.add` and `resource.add` for the names, each in list order.
///
/// # Errors
///
/// `AllocError` if memory runs out.
///
/// Its contract is an equation but for memory.
pub fn dump_text<E: Evaluates>(
    alloc: Global,
    review: &Review<E>,
    version: u64,
) -> Result<String, AllocError>
    ensures { IfOk result (λ s. string_bytes s ≡ dump_text version review.now.state) }
{
    let mut out = JsonText::with_room(alloc)?;
    write_dump(alloc, &mut out, review, version)?;
    Ok(out.into_string())
}
