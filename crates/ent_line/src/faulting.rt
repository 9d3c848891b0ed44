//! The cells of which a part failed: the reply to `faults`.

ghost use Rattle.std.specs.Prelude.{codes};
ghost use Rattle.ent_table.specs.Left.{judged_left};
ghost use Rattle.ent_table.specs.Names.{triple_of};
ghost use Rattle.ent_line.specs.Cells.{list_data, reply_data};
ghost use Rattle.ent_line.specs.Commands.{faults_told};
ghost use Rattle.ent_line.specs.Reports.{fault_data, faults_reply};
ghost use Rattle.ent_line.specs.proofs_only.Failing.{failed_in};
ghost use Rattle.ent_line.specs.proofs_only.Replying.{Tells};
ghost use Rattle.ent_line.specs.proofs_only.Writing.{Spells, Writes, WritesEach};

use crate::cell::{write_decision, write_names};
use crate::reply::Reply;
use crate::reports::begin_list;
use crate::service::Service;
use ent_eval::{Answer, Evaluates};
use ent_json::{JsonText, write_text};
use ent_table::Judged;
use std::alloc::{AllocError, Global};

/// Writes a cell by its names and its decision.
fn write_fault(
    out: &mut JsonText,
    person: &str,
    action: &str,
    resource: &str,
    answer: &Answer,
) -> Result<(), AllocError>
    ensures { Writes (fault_data (triple_of person.now action.now resource.now, answer.now))
        out.old out.new result }
{
    out.begin_object()?;
    write_text(out, "action", action)?;
    write_decision(out, answer.decision)?;
    write_names(out, person, resource)?;
    out.end_object()
}

/// Writes those of the cells that are left of which a part failed, to the end of their list.
fn write_failed<E: Evaluates>(out: &mut JsonText, cells: Judged<'_, E>) -> Result<(), AllocError>
    ensures { WritesEach fault_data (failed_in (judged_left cells.entry)) out.old out.new result }
{
    for (person, action, resource, answer, failed) in cells {
        if failed {
            write_fault(out, person, action, resource, answer)?;
        }
    }
    out.end_array()
}

/// Writes the reply to `faults`.
fn write_reply<E: Evaluates>(out: &mut JsonText, cells: Judged<'_, E>) -> Result<(), AllocError>
    ensures { Writes
        (reply_data (codes "faults") (list_data fault_data (failed_in (judged_left cells.entry))))
        out.old out.new result }
{
    begin_list(out, "faults")?;
    write_failed(out, cells)?;
    out.end_object()
}

/// The text of the reply to `faults`.
fn faults_text<E: Evaluates>(alloc: Global, cells: Judged<'_, E>) -> Result<String, AllocError>
    ensures { Spells (faults_reply (failed_in (judged_left cells.entry))) result }
{
    let mut out = JsonText::with_room(alloc)?;
    write_reply(&mut out, cells)?;
    Ok(out.into_string())
}

impl<E: Evaluates> Service<E> {
    /// `faults`.
    #[tactic(auto, unfolding(crate::specs::Commands::faults_told))]
    pub(crate) fn faults(&self) -> Result<Reply, AllocError>
        ensures { Tells (λ w. faults_told w.state) self.now result }
    {
        let text = faults_text(self.alloc, self.desk.review().judged())?;
        Ok(Reply::Text(text))
    }
}
