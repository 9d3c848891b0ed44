//! Which cells a line asks for.

ghost use Rattle.std.specs.Prelude.{◌≡◌, map, option_copied, option_map};
ghost use Rattle.ent_command.specs.Wanted.{decision_text, are_decisions, every_decision, is_word_of};
ghost use Rattle.ent_command.specs.Wanted.{optional_decisions, optional_text, wanted_in};
ghost use Rattle.std.specs.List.{list_any};
ghost use Rattle.serde_json.specs.View.{items_of};
ghost use Rattle.ent_command.specs.CommandView.{wanted_view};

use ent_combine::{IndKind, Outcome};
use ent_json::{JsonTree, text_at, text_or_absent};

/// The word of a decision.
///
/// Its contract is an equation.
pub fn decision_text(decision: Outcome) -> &'static str
    ensures { result.now ≡ decision_text decision }
{
    match decision {
        Outcome::Permit => "Permit",
        Outcome::Deny => "Deny",
        Outcome::NotApplicable => "NotApplicable",
        Outcome::Ind(IndKind::P) => "Indeterminate{P}",
        Outcome::Ind(IndKind::D) => "Indeterminate{D}",
        Outcome::Ind(IndKind::DP) => "Indeterminate{DP}",
    }
}

/// The person, the action, the resource and the words of the decisions of the cells that are asked for, where they are
/// given. They stay where they are in the line's JSON.
#[derive(Drop)]
pub struct WantedCells<'a, J> {
    pub person: Option<&'a str>,
    pub action: Option<&'a str>,
    pub resource: Option<&'a str>,
    pub decisions: Option<&'a [J]>,
}

/// The decisions that there are.
const DECISIONS: &[Outcome] = &[
    Outcome::Permit,
    Outcome::Deny,
    Outcome::NotApplicable,
    Outcome::Ind(IndKind::P),
    Outcome::Ind(IndKind::D),
    Outcome::Ind(IndKind::DP),
];

/// The text at a key, which may be absent. `None` if something else stands there.
pub(crate) fn optional_text<'a, J: JsonTree>(object: &'a J, key: &str) -> Option<Option<&'a str>>
    ensures { option_map (λ t. option_copied t) result ≡ optional_text key.now (J.content object.now) }
{
    if text_or_absent(object, key) {
        Some(text_at(object, key))
    } else {
        None
    }
}

/// Whether a value is the word of a decision.
///
/// Its contract is an equation.
pub fn is_word_of<J: JsonTree>(value: &J, decision: Outcome) -> bool
    ensures { result ≡ is_word_of (J.content value.now) decision }
{
    match value.as_str() {
        None => false,
        Some(word) => word == decision_text(decision),
    }
}

/// Whether a value is the word of some decision.
fn is_decision<J: JsonTree>(value: &J) -> bool
    ensures { result ≡ list_any (is_word_of (J.content value.now)) every_decision }
{
    DECISIONS
        .iter()
        .any(|decision| is_word_of(value, *decision))
}

/// Whether each of these is the word of some decision.
fn are_decisions<J: JsonTree>(values: &[J]) -> bool
    ensures { result ≡ are_decisions (items_of (map J.content values.now)) }
{
    for value in values {
        if !is_decision(value) {
            return false;
        }
    }
    true
}

/// The words of decisions in the array at the key `decisions`, which may be absent. `None` if something else stands
/// there.
fn optional_decisions<J: JsonTree>(object: &J) -> Option<Option<&[J]>>
    ensures { option_map (λ o. option_map (λ ds. items_of (map J.content ds.now)) o) result
        ≡ optional_decisions (J.content object.now) }
{
    let Some(value) = object.get("decisions") else {
        return Some(None);
    };
    let values = value.as_array()?;
    if are_decisions(values) {
        Some(Some(values))
    } else {
        None
    }
}

/// Which cells an object asks for. `None` where its shape is wrong.
#[tactic(auto, unfolding(crate::specs::Wanted::wanted_in))]
pub(crate) fn wanted_in<J: JsonTree>(object: &J) -> Option<WantedCells<'_, J>>
    ensures { option_map (wanted_view J.content) result ≡ wanted_in (J.content object.now) }
{
    let person = optional_text(object, "person")?;
    let action = optional_text(object, "action")?;
    let resource = optional_text(object, "resource")?;
    let decisions = optional_decisions(object)?;
    Some(WantedCells {
        person,
        action,
        resource,
        decisions,
    })
}
