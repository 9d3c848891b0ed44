//! The cells that are asked for: the reply to `cells`.

ghost use Rattle.std.specs.Prelude.{◌≡◌, true, bytes_eq, codes, filter, map, option_copied, option_map};
ghost use Rattle.std.specs.List.{list_any};
ghost use Rattle.std.specs.Option.{option_map_or};
ghost use Rattle.serde_json.specs.View.{items_of};
ghost use Rattle.ent_combine.specs.declared.outcome.Outcome.{Outcome};
ghost use Rattle.ent_request.specs.declared.answer.Answer.{Answer};
ghost use Rattle.ent_json.specs.Members.{only_member};
ghost use Rattle.ent_table.specs.Left.{cells_left};
ghost use Rattle.ent_table.specs.Names.{Triple, has_name, list_of, triple_of};
ghost use Rattle.ent_line.specs.Cells.{cell_data, cells_reply, list_data};
ghost use Rattle.ent_line.specs.Commands.{cells_told};
ghost use Rattle.ent_command.specs.Wanted.{has_decision, is_asked, is_word_of};
ghost use Rattle.ent_command.specs.CommandView.{wanted_view};
ghost use Rattle.ent_line.specs.proofs_only.Replying.{Tells};
ghost use Rattle.ent_line.specs.proofs_only.Selecting.{holds, names_listed, selects};
ghost use Rattle.ent_line.specs.proofs_only.Writing.{Spells, Writes, WritesEach};

use crate::cell::write_cell;
use crate::reply::Reply;
use crate::service::Service;
use ent_combine::{IndKind, Outcome};
use ent_command::{WantedCells, is_word_of};
use ent_eval::{Answer, Evaluates};
use ent_json::{JsonText, JsonTree};
use ent_table::{Cells, List};
use ent_wire::Refusal;
use std::alloc::{AllocError, Global};

/// For each decision whether it is one of some.
#[derive(Clone, Copy)]
pub(crate) struct Decisions {
    permit: bool,
    deny: bool,
    not_applicable: bool,
    p: bool,
    d: bool,
    dp: bool,
}

/// The cells of a person, an action and a resource, where they are given, and of some decisions.
#[derive(Clone, Copy)]
pub(crate) struct Selection<'a> {
    person: Option<&'a str>,
    action: Option<&'a str>,
    resource: Option<&'a str>,
    decisions: Decisions,
}

/// Whether a decision is named in a list.
fn is_named<J: JsonTree>(values: &[J], decision: Outcome) -> bool
    ensures { result ≡ list_any (λ j. is_word_of (J.content j) decision) values.now }
{
    values.iter().any(|value| is_word_of(value, decision))
}

/// Whether a decision is in an array, which has all where it is absent.
fn has_decision<J: JsonTree>(decisions: Option<&[J]>, decision: Outcome) -> bool
    ensures { result ≡ option_map_or (has_decision decision)
        (option_map (λ ds. items_of (map J.content ds.now)) decisions.entry) true }
{
    match decisions {
        None => true,
        Some(values) => is_named(values, decision),
    }
}

/// Whether a name is the one that is wanted, if one is.
fn is_wanted(wanted: Option<&str>, name: &str) -> bool
    ensures { result ≡ option_map_or (bytes_eq name.now) (option_copied wanted.entry) true }
{
    match wanted {
        None => true,
        Some(wanted) => name == wanted,
    }
}

impl Decisions {
    /// Those that are in an array, or all where it is absent.
    fn of<J: JsonTree>(decisions: Option<&[J]>) -> Decisions
        ensures { (decision : Outcome) → holds result decision ≡ option_map_or (has_decision decision)
            (option_map (λ ds. items_of (map J.content ds.now)) decisions.entry) true }
    {
        Decisions {
            permit: has_decision(decisions, Outcome::Permit),
            deny: has_decision(decisions, Outcome::Deny),
            not_applicable: has_decision(decisions, Outcome::NotApplicable),
            p: has_decision(decisions, Outcome::Ind(IndKind::P)),
            d: has_decision(decisions, Outcome::Ind(IndKind::D)),
            dp: has_decision(decisions, Outcome::Ind(IndKind::DP)),
        }
    }

    /// Whether a decision is one of them.
    fn has(self, decision: Outcome) -> bool
        ensures { result ≡ holds self decision }
    {
        match decision {
            Outcome::Permit => self.permit,
            Outcome::Deny => self.deny,
            Outcome::NotApplicable => self.not_applicable,
            Outcome::Ind(IndKind::P) => self.p,
            Outcome::Ind(IndKind::D) => self.d,
            Outcome::Ind(IndKind::DP) => self.dp,
        }
    }
}

impl<'a> Selection<'a> {
    /// The cells that are wanted.
    fn of<J: JsonTree>(wanted: WantedCells<'a, J>) -> Selection<'a>
        ensures { (c : Triple × Answer) → selects result c ≡ is_asked (wanted_view J.content wanted.entry) c }
    {
        Selection {
            person: wanted.person,
            action: wanted.action,
            resource: wanted.resource,
            decisions: Decisions::of(wanted.decisions),
        }
    }

    /// Whether a cell is one of them.
    fn has(self, person: &str, action: &str, resource: &str, answer: &Answer) -> bool
        ensures { result ≡ selects self.entry (triple_of person.now action.now resource.now, answer.now) }
    {
        is_wanted(self.person, person)
            && is_wanted(self.action, action)
            && is_wanted(self.resource, resource)
            && self.decisions.has(answer.decision)
    }
}

/// Writes the selected cells of those that are left, to the end of their list.
fn write_selected<E: Evaluates>(
    alloc: Global,
    out: &mut JsonText,
    selection: Selection<'_>,
    cells: Cells<'_, E>,
) -> Result<(), AllocError>
    ensures { WritesEach cell_data (filter (selects selection.entry) (cells_left cells.entry))
        out.old out.new result }
{
    for (person, action, resource, answer) in cells {
        if selection.has(person, action, resource, answer) {
            write_cell(alloc, out, person, action, resource, answer)?;
        }
    }
    out.end_array()
}

/// Writes the reply to `cells`.
fn write_reply<E: Evaluates>(
    alloc: Global,
    out: &mut JsonText,
    selection: Selection<'_>,
    cells: Cells<'_, E>,
) -> Result<(), AllocError>
    ensures { Writes
        (only_member (codes "cells")
        (list_data cell_data (filter (selects selection.entry) (cells_left cells.entry))))
        out.old out.new result }
{
    out.begin_object()?;
    out.key("cells")?;
    out.begin_array()?;
    write_selected(alloc, out, selection, cells)?;
    out.end_object()
}

/// The text of the reply to `cells`.
fn cells_text<E: Evaluates>(
    alloc: Global,
    selection: Selection<'_>,
    cells: Cells<'_, E>,
) -> Result<String, AllocError>
    ensures { Spells (cells_reply
        (filter (selects selection.entry) (cells_left cells.entry))) result }
{
    let mut out = JsonText::with_room(alloc)?;
    write_reply(alloc, &mut out, selection, cells)?;
    Ok(out.into_string())
}

impl<E: Evaluates> Service<E> {
    /// Whether a name is listed, if one is given.
    fn is_listed(&self, list: List, name: Option<&str>) -> bool
        ensures { result ≡ option_map_or
            (λ n. has_name n (list_of list self.now.world.state.names))
            (option_copied name.entry) true }
    {
        match name {
            None => true,
            Some(name) => self.desk.review().listed(list, name),
        }
    }

    /// Whether the names that are given are listed.
    pub(crate) fn are_listed(
        &self,
        person: Option<&str>,
        action: Option<&str>,
        resource: Option<&str>,
    ) -> bool
        ensures { result ≡ names_listed self.now.world.state.names
            (option_copied person.entry) (option_copied action.entry) (option_copied resource.entry) }
    {
        self.is_listed(List::People, person)
            && self.is_listed(List::Actions, action)
            && self.is_listed(List::Resources, resource)
    }

    /// `cells`.
    #[tactic(auto, unfolding(crate::specs::Commands::cells_told))]
    pub(crate) fn cells<J: JsonTree>(&self, wanted: WantedCells<'_, J>) -> Result<Reply, AllocError>
        ensures { Tells (λ w. cells_told w.state (wanted_view J.content wanted.entry))
            self.now result }
    {
        if !self.are_listed(wanted.person, wanted.action, wanted.resource) {
            return Ok(Reply::Refused(Refusal::NotThere));
        }
        let selection = Selection::of(wanted);
        let text = cells_text(self.alloc, selection, self.desk.review().cells())?;
        Ok(Reply::Text(text))
    }
}
