//! Serving a reader's lines, by a service that holds nothing before the first of them.

ghost use Rattle.std.specs.Prelude.{◌≡◌, ◌≤◌, ◌+◌, ◌++◌, ◌∷◌, [], IfOk, OnOk, map, vec_len};
ghost use Rattle.std.specs.FinMap.{empty};
ghost use Rattle.ent_line.specs.Headline.{Headline};
ghost use Rattle.ent_line.specs.Step.{Counted, at_start};
ghost use Rattle.cli_words.specs.Options.{IsFew};
ghost use Rattle.cli_serve.specs.Starting.{categories, no_rows, start_of};
ghost use Rattle.cli_serve.specs.proofs_only.Begun.{begun};
ghost use Rattle.ent_table.specs.Limits.{IsWithinGreatest};

use cli_words::Modules;
use ent_eval::{ACCESS_SUBJECT, ACTION, Pdp, RESOURCE};
use ent_evaluator::Evaluator;
use ent_finder::{
    AttributeFinder, AttributeFinderModule, Attributes, MapDocs, MapRows, Policies, PolicyFinder,
    PolicyFinderModule,
};
use ent_line::{Service, replies_are_fresh, serve_review};
use ent_report::Desk;
use ent_table::{Limits, Review};
use ent_values::{Items, Text};
use ent_wire::ServeFault;
use std::alloc::{AllocError, Global};
use std::io::{BufRead, Write};

/// The categories that a module of attributes supports.
fn categories(alloc: Global) -> Result<Items<Text>, AllocError>
    ensures { IfOk result (λ c. c ≡ categories) }
{
    let mut categories = Items::with_capacity(alloc, 3)?;
    categories.push(Text::from_str(alloc, ACCESS_SUBJECT)?)?;
    categories.push(Text::from_str(alloc, RESOURCE)?)?;
    categories.push(Text::from_str(alloc, ACTION)?)?;
    Ok(categories)
}

/// Puts a module of attributes last that has no rows.
fn push_rowless(
    modules: &mut Vec<Box<dyn AttributeFinderModule>>,
    store: Box<dyn AttributeFinderModule>,
) -> Result<(), AllocError>
    requires { source store ≡ no_rows }
    ensures sources { OnOk result (map (λ b. source b) modules.new.items
        ≡ map (λ b. source b) modules.old.items ++ no_rows ∷ []) }
    ensures len { OnOk result (vec_len modules.new ≡ vec_len modules.old + 1) }
{
    modules.push(store)?;
    Ok(())
}

/// Puts a module last that has no slots.
fn push_empty(
    modules: &mut Vec<Box<dyn PolicyFinderModule>>,
    store: Box<dyn PolicyFinderModule>,
) -> Result<(), AllocError>
    requires { slots store ≡ empty }
    ensures slots { OnOk result (map (λ b. slots b) modules.new.items
        ≡ map (λ b. slots b) modules.old.items ++ empty ∷ []) }
    ensures len { OnOk result (vec_len modules.new ≡ vec_len modules.old + 1) }
{
    modules.push(store)?;
    Ok(())
}

/// Serves by a service over what holds values and documents, within those limits, which begins without a root, marks
/// and names, and knows nothing of the time. No function holds such a service over boxed modules, so this one is
/// generic in them.
fn serve_over<A: Attributes, P: Policies, R: BufRead, W: Write>(
    alloc: Global,
    attributes: A,
    policies: P,
    limits: Limits,
    reader: &mut R,
    writer: &mut W,
) -> Result<u64, ServeFault>
    requires { IsWithinGreatest limits }
    ensures { (end : Counted) × Headline (record {
      start = at_start (begun limits (A.sources attributes) (P.slots policies));
      end = end;
      unread = R.remaining reader.old;
      left = R.remaining reader.new;
      wrote = W.contents writer.old;
      holds = W.contents writer.new;
    }) result }
{
    let pdp = Pdp::new(alloc, attributes, policies);
    let review: Review<Evaluator<A, P>> = Review::new(alloc, pdp, limits);
    let mut service = Service::new(alloc, Desk::new(alloc, review));
    serve_review(alloc, &mut service, reader, writer)
}

/// Answers each line of the reader by one line into the writer, by a service within those limits whose modules,
/// of those numbers, hold nothing before the first of them, and gives their number.
///
/// Its contract leaves open: as of `serve_review`, from a service that holds nothing.
pub fn serve_from<R: BufRead, W: Write>(
    alloc: Global,
    count: Modules,
    limits: Limits,
    reader: &mut R,
    writer: &mut W,
) -> Result<u64, ServeFault>
    requires attributes { IsFew count.attributes }
    requires policies { IsFew count.policies }
    requires limits { IsWithinGreatest limits }
    ensures { (end : Counted) × Headline (record {
      start = at_start (start_of limits count.attributes count.policies);
      end = end;
      unread = R.remaining reader.old;
      left = R.remaining reader.new;
      wrote = W.contents writer.old;
      holds = W.contents writer.new;
    }) result }
{
    replies_are_fresh();
    let mut attributes: Vec<Box<dyn AttributeFinderModule>> = Vec::new(alloc);
    for _ in 0..count.attributes {
        let store = MapRows::new(alloc, categories(alloc)?);
        push_rowless(&mut attributes, Box::new(alloc, store)?)?;
    }
    let mut policies: Vec<Box<dyn PolicyFinderModule>> = Vec::new(alloc);
    for _ in 0..count.policies {
        push_empty(&mut policies, Box::new(alloc, MapDocs::new(alloc))?)?;
    }
    serve_over(
        alloc,
        AttributeFinder::new(attributes),
        PolicyFinder::new(policies),
        limits,
        reader,
        writer,
    )
}
