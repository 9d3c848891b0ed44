//! The questions that an object asks.

ghost use Rattle.std.specs.Prelude.{◌≡◌, codes, option_and_then, option_map};
ghost use Rattle.serde_json.specs.Find.{get};
ghost use Rattle.ent_json.specs.Objects.{text_at};
ghost use Rattle.ent_table.specs.Names.{triple_of};
ghost use Rattle.ent_command.specs.Asked as asked;
ghost use Rattle.ent_command.specs.Asked.{attributes_asked, by_rule_asked, explain_asked, explanation_asked};
ghost use Rattle.ent_command.specs.Asked.{names_asked, triple_in, who_asked};
ghost use Rattle.ent_command.specs.Keys.{number_at, number_in};
ghost use Rattle.ent_command.specs.Wanted.{optional_text, wanted_in};
ghost use Rattle.ent_command.specs.CommandView.{question_view};

use crate::command::QuestionCommand;
use crate::keys::{category_named, list_named, null_or_text_at, number_at, number_in};
use crate::wanted::{optional_text, wanted_in};
use ent_json::{JsonTree, flag_at, text_at};

/// The person, the action and the resource that an object names.
#[tactic(auto, unfolding(crate::specs::Asked::triple_in))]
fn triple_in<J: JsonTree>(object: &J) -> Option<(&str, &str, &str)>
    ensures { option_map (λ t. triple_of t.0.now t.1.now t.2.now) result ≡ triple_in (J.content object.now) }
{
    let person = text_at(object, "person")?;
    let action = text_at(object, "action")?;
    let resource = text_at(object, "resource")?;
    Some((person, action, resource))
}

/// `cell`.
pub(crate) fn cell<J: JsonTree>(object: &J) -> Option<QuestionCommand<'_, J>>
    ensures { option_map (question_view J.content) result
        ≡ option_map asked.cell (triple_in (J.content object.now)) }
{
    let (person, action, resource) = triple_in(object)?;
    Some(QuestionCommand::Cell(person, action, resource))
}

/// `explain`, with documents or without. Beside a request no names stand.
fn explanation<J: JsonTree>(object: &J, whole: bool) -> Option<QuestionCommand<'_, J>>
    ensures { option_map (question_view J.content) result ≡ explanation_asked whole (J.content object.now) }
{
    let Some(request) = object.get("request") else {
        let (person, action, resource) = triple_in(object)?;
        return Some(QuestionCommand::ExplainCell(whole, person, action, resource));
    };
    if !object.has_only(&["do", "session", "documents", "request"]) {
        return None;
    }
    Some(QuestionCommand::Explain(whole, request))
}

/// `explain`.
#[tactic(auto, unfolding(crate::specs::Asked::explain_asked))]
pub(crate) fn explain<J: JsonTree>(object: &J) -> Option<QuestionCommand<'_, J>>
    ensures { option_map (question_view J.content) result ≡ explain_asked (J.content object.now) }
{
    let whole = flag_at(object, "documents")?;
    explanation(object, whole)
}

/// `ask`.
pub(crate) fn ask<J: JsonTree>(object: &J) -> Option<QuestionCommand<'_, J>>
    ensures { option_map (question_view J.content) result
        ≡ option_map asked.ask (get (codes "request") (J.content object.now)) }
{
    let request = object.get("request")?;
    Some(QuestionCommand::Ask(request))
}

/// `can`.
pub(crate) fn can<J: JsonTree>(object: &J) -> Option<QuestionCommand<'_, J>>
    ensures { option_map (question_view J.content) result
        ≡ option_map asked.can (text_at (codes "person") (J.content object.now)) }
{
    let person = text_at(object, "person")?;
    Some(QuestionCommand::Can(person))
}

/// `who`.
#[tactic(auto, unfolding(crate::specs::Asked::who_asked))]
pub(crate) fn who<J: JsonTree>(object: &J) -> Option<QuestionCommand<'_, J>>
    ensures { option_map (question_view J.content) result
        ≡ who_asked (J.content object.now) }
{
    let action = text_at(object, "action")?;
    let resource = text_at(object, "resource")?;
    Some(QuestionCommand::Who(action, resource))
}

/// `by_rule`.
#[tactic(auto, unfolding(crate::specs::Asked::by_rule_asked))]
pub(crate) fn by_rule<J: JsonTree>(object: &J) -> Option<QuestionCommand<'_, J>>
    ensures { option_map (question_view J.content) result
        ≡ by_rule_asked (J.content object.now) }
{
    let policy = text_at(object, "policy")?;
    let rule = null_or_text_at(object, "rule")?;
    Some(QuestionCommand::ByRule(policy, rule))
}

/// `changes`.
pub(crate) fn changes<J: JsonTree>(object: &J) -> Option<QuestionCommand<'_, J>>
    ensures { option_map (question_view J.content) result
        ≡ option_map asked.changes_since (option_and_then number_in (get (codes "since") (J.content object.now))) }
{
    let since = number_in(object.get("since")?)?;
    Some(QuestionCommand::Changes(since))
}

/// `format`.
pub(crate) fn format<J: JsonTree>(object: &J) -> Option<QuestionCommand<'_, J>>
    ensures { option_map (question_view J.content) result
        ≡ option_map asked.format (option_and_then number_in (get (codes "version") (J.content object.now))) }
{
    let version = number_in(object.get("version")?)?;
    Some(QuestionCommand::Format(version))
}

/// `dump`. The absent version is the newest.
pub(crate) fn dump<J: JsonTree>(object: &J) -> Option<QuestionCommand<'_, J>>
    ensures { option_map (question_view J.content) result
        ≡ option_map asked.dump (number_at (codes "version") 2 (J.content object.now)) }
{
    let version = number_at(object, "version", 2)?;
    Some(QuestionCommand::Dump(version))
}

/// `cells`.
pub(crate) fn cells<J: JsonTree>(object: &J) -> Option<QuestionCommand<'_, J>>
    ensures { option_map (question_view J.content) result
        ≡ option_map asked.cells (wanted_in (J.content object.now)) }
{
    let wanted = wanted_in(object)?;
    Some(QuestionCommand::Cells(wanted))
}

/// `attributes`.
#[tactic(auto, unfolding(crate::specs::Asked::attributes_asked))]
pub(crate) fn attributes<J: JsonTree>(object: &J) -> Option<QuestionCommand<'_, J>>
    ensures { option_map (question_view J.content) result
        ≡ attributes_asked (J.content object.now) }
{
    let category = category_named(text_at(object, "category")?);
    let entity = text_at(object, "entity")?;
    Some(QuestionCommand::Attributes(category, entity))
}

/// `documents`.
pub(crate) fn documents<J: JsonTree>(object: &J) -> Option<QuestionCommand<'_, J>>
    ensures { option_map (question_view J.content) result
        ≡ option_map asked.documents (optional_text (codes "id") (J.content object.now)) }
{
    let id = optional_text(object, "id")?;
    Some(QuestionCommand::Documents(id))
}

/// `names`. All from the first on, where it isn't said.
#[tactic(auto, unfolding(crate::specs::Asked::names_asked))]
pub(crate) fn names<J: JsonTree>(object: &J) -> Option<QuestionCommand<'_, J>>
    ensures { option_map (question_view J.content) result ≡ names_asked (J.content object.now) }
{
    let list = list_named(text_at(object, "list")?)?;
    let from = number_at(object, "from", 0)?;
    let count = number_at(object, "count", 65_536)?;
    Some(QuestionCommand::Names(list, from, count))
}
