//! The JSON of reports and notices.

ghost use Rattle.std.specs.Prelude.{[], ◌∷◌, ◌++◌, codes};
ghost use Rattle.json.specs.Token as token;
ghost use Rattle.serde_json.specs.Data as json;
ghost use Rattle.ent_json.specs.Text.{tokens_of};
ghost use Rattle.ent_line.specs.Cells.{list_data, reply_data};
ghost use Rattle.ent_line.specs.Reports.{counts_data, decision_data, notice_data, pair_data, triple_data};
ghost use Rattle.ent_line.specs.Reports.{by_rule_reply, can_reply, changes_reply, counts_reply, notices_reply};
ghost use Rattle.ent_line.specs.Reports.{who_reply, work_reply};
ghost use Rattle.ent_line.specs.proofs_only.Writing.{Adds, Spells, Writes, WritesEach};

use ent_combine::Outcome;
use ent_command::decision_text;
use ent_json::{JsonText, write_count, write_text};
use ent_report::{Counts, Notice};
use ent_values::Text;
use itoa::Buffer;
use std::alloc::{AllocError, Global};

/// Writes how many cells have each decision.
fn write_counts(out: &mut JsonText, counts: Counts) -> Result<(), AllocError>
    ensures { Writes (counts_data counts) out.old out.new result }
{
    out.begin_object()?;
    write_count(out, "Deny", counts.deny)?;
    write_count(out, "Indeterminate", counts.indeterminate)?;
    write_count(out, "NotApplicable", counts.not_applicable)?;
    write_count(out, "Permit", counts.permit)?;
    out.end_object()
}

/// Writes an action and a resource.
fn write_pair(out: &mut JsonText, action: &str, resource: &str) -> Result<(), AllocError>
    ensures { Writes (pair_data (action.now, resource.now)) out.old out.new result }
{
    out.begin_object()?;
    write_text(out, "action", action)?;
    write_text(out, "resource", resource)?;
    out.end_object()
}

/// Writes a person, an action and a resource.
fn write_triple(
    out: &mut JsonText,
    person: &str,
    action: &str,
    resource: &str,
) -> Result<(), AllocError>
    ensures { Writes (triple_data (person.now, action.now, resource.now)) out.old out.new result }
{
    out.begin_object()?;
    write_text(out, "action", action)?;
    write_text(out, "person", person)?;
    write_text(out, "resource", resource)?;
    out.end_object()
}

/// Writes a decision, null for a request that isn't listed.
fn write_decision(out: &mut JsonText, decision: Option<Outcome>) -> Result<(), AllocError>
    ensures { Writes (decision_data decision) out.old out.new result }
{
    match decision {
        None => out.null(),
        Some(decision) => out.string(decision_text(decision)),
    }
}

/// Begins a notice: its action and its decisions.
fn write_decisions(out: &mut JsonText, notice: &Notice) -> Result<(), AllocError>
    ensures { Adds
        (token.begin_object
        ∷ token.key (codes "action") ∷ token.string notice.now.action
        ∷ token.key (codes "after") ∷ (tokens_of (decision_data notice.now.after)
        ++ token.key (codes "before") ∷ tokens_of (decision_data notice.now.before)))
        out.old out.new result }
{
    out.raw("{\"action\":")?;
    out.string(notice.action.as_str())?;
    out.raw("\"after\":")?;
    write_decision(out, notice.after)?;
    out.raw("\"before\":")?;
    write_decision(out, notice.before)
}

/// Writes a notice.
fn write_notice(out: &mut JsonText, notice: &Notice) -> Result<(), AllocError>
    ensures { Writes (notice_data notice.now) out.old out.new result }
{
    write_decisions(out, notice)?;
    out.raw("\"person\":")?;
    out.string(notice.person.as_str())?;
    out.raw("\"resource\":")?;
    out.string(notice.resource.as_str())?;
    out.end_object()
}

/// Writes actions and resources, to the end of their list.
fn write_pairs(out: &mut JsonText, found: &[(Text, Text)]) -> Result<(), AllocError>
    ensures { WritesEach pair_data found.now out.old out.new result }
{
    for (action, resource) in found {
        write_pair(out, action.as_str(), resource.as_str())?;
    }
    out.end_array()
}

/// Writes names, to the end of their list.
pub(crate) fn write_people(out: &mut JsonText, people: &[Text]) -> Result<(), AllocError>
    ensures { WritesEach json.string people.now out.old out.new result }
{
    for person in people {
        out.string(person.as_str())?;
    }
    out.end_array()
}

/// Writes requests, to the end of their list.
fn write_triples(out: &mut JsonText, found: &[(Text, Text, Text)]) -> Result<(), AllocError>
    ensures { WritesEach triple_data found.now out.old out.new result }
{
    for (person, action, resource) in found {
        write_triple(out, person.as_str(), action.as_str(), resource.as_str())?;
    }
    out.end_array()
}

/// Writes notices, to the end of their list.
fn write_notices(out: &mut JsonText, notices: &[Notice]) -> Result<(), AllocError>
    ensures { WritesEach notice_data notices.now out.old out.new result }
{
    for notice in notices {
        write_notice(out, notice)?;
    }
    out.end_array()
}

/// Writes the reply to `counts`.
fn write_counts_reply(out: &mut JsonText, counts: Counts) -> Result<(), AllocError>
    ensures { Writes (reply_data (codes "counts") (counts_data counts)) out.old out.new result }
{
    out.begin_object()?;
    out.key("counts")?;
    write_counts(out, counts)?;
    out.end_object()
}

/// Begins a reply with a list.
pub(crate) fn begin_list(out: &mut JsonText, name: &str) -> Result<(), AllocError>
    ensures { Adds (token.begin_object ∷ token.key name.now ∷ token.begin_array ∷ [])
        out.old out.new result }
{
    out.begin_object()?;
    out.key(name)?;
    out.begin_array()
}

/// Writes the reply to `can`.
fn write_can_reply(out: &mut JsonText, found: &[(Text, Text)]) -> Result<(), AllocError>
    ensures { Writes (reply_data (codes "can") (list_data pair_data found.now))
        out.old out.new result }
{
    begin_list(out, "can")?;
    write_pairs(out, found)?;
    out.end_object()
}

/// Writes the reply to `who`.
fn write_who_reply(out: &mut JsonText, people: &[Text]) -> Result<(), AllocError>
    ensures { Writes (reply_data (codes "who") (list_data json.string people.now))
        out.old out.new result }
{
    begin_list(out, "who")?;
    write_people(out, people)?;
    out.end_object()
}

/// Writes the reply to `by_rule`.
fn write_by_rule_reply(out: &mut JsonText, found: &[(Text, Text, Text)]) -> Result<(), AllocError>
    ensures { Writes (reply_data (codes "by_rule") (list_data triple_data found.now))
        out.old out.new result }
{
    begin_list(out, "by_rule")?;
    write_triples(out, found)?;
    out.end_object()
}

/// Writes the reply to `notices`.
fn write_notices_reply(out: &mut JsonText, notices: &[Notice]) -> Result<(), AllocError>
    ensures { Writes (reply_data (codes "notices") (list_data notice_data notices.now))
        out.old out.new result }
{
    begin_list(out, "notices")?;
    write_notices(out, notices)?;
    out.end_object()
}

/// Writes the reply to `changes`.
fn write_changes_reply(
    out: &mut JsonText,
    notices: &[Notice],
    serial: u64,
) -> Result<(), AllocError>
    ensures { Writes (changes_reply notices.now serial) out.old out.new result }
{
    begin_list(out, "changes")?;
    write_notices(out, notices)?;
    write_count(out, "serial", serial)?;
    out.end_object()
}

/// The text of the reply to `counts`.
pub(crate) fn counts_text(alloc: Global, counts: Counts) -> Result<String, AllocError>
    ensures { Spells (counts_reply counts) result }
{
    let mut out = JsonText::with_room(alloc)?;
    write_counts_reply(&mut out, counts)?;
    Ok(out.into_string())
}

/// The text of the reply to `can`.
pub(crate) fn can_text(alloc: Global, found: &[(Text, Text)]) -> Result<String, AllocError>
    ensures { Spells (can_reply found.now) result }
{
    let mut out = JsonText::with_room(alloc)?;
    write_can_reply(&mut out, found)?;
    Ok(out.into_string())
}

/// The text of the reply to `who`.
pub(crate) fn who_text(alloc: Global, people: &[Text]) -> Result<String, AllocError>
    ensures { Spells (who_reply people.now) result }
{
    let mut out = JsonText::with_room(alloc)?;
    write_who_reply(&mut out, people)?;
    Ok(out.into_string())
}

/// The text of the reply to `by_rule`.
pub(crate) fn by_rule_text(
    alloc: Global,
    found: &[(Text, Text, Text)],
) -> Result<String, AllocError>
    ensures { Spells (by_rule_reply found.now) result }
{
    let mut out = JsonText::with_room(alloc)?;
    write_by_rule_reply(&mut out, found)?;
    Ok(out.into_string())
}

/// The text of the reply to `notices`.
pub(crate) fn notices_text(alloc: Global, notices: &[Notice]) -> Result<String, AllocError>
    ensures { Spells (notices_reply notices.now) result }
{
    let mut out = JsonText::with_room(alloc)?;
    write_notices_reply(&mut out, notices)?;
    Ok(out.into_string())
}

/// The text of the reply to `changes`.
pub(crate) fn changes_text(
    alloc: Global,
    notices: &[Notice],
    serial: u64,
) -> Result<String, AllocError>
    ensures { Spells (changes_reply notices.now serial) result }
{
    let mut out = JsonText::with_room(alloc)?;
    write_changes_reply(&mut out, notices, serial)?;
    Ok(out.into_string())
}

/// The text of the reply to `work`: how many times a request was evaluated.
#[tactic(auto, unfolding(crate::specs::Reports::work_reply))]
pub(crate) fn work_text(alloc: Global, evaluations: u128) -> Result<String, AllocError>
    ensures { Spells (work_reply evaluations) result }
{
    let mut number = Buffer::new();
    let mut text = String::from_str(alloc, "{\"evaluations\":")?;
    text.push_str(number.format(evaluations))?;
    text.push_str("}")?;
    Ok(text)
}
