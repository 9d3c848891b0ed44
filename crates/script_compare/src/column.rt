//! What a person reads of a change.

ghost use Rattle.std.specs.Prelude.{◌≡◌, ◌++◌, [], IfOk, OnOk, map, option_and_then, option_map};
ghost use Rattle.std.specs.List.{flat_map};
ghost use Rattle.serde_json.specs.View.{view};
ghost use Rattle.ent_json.specs.Objects.{text_at};
ghost use Rattle.script_compare.specs.Shown.{also_at, also_between, also_of, cell_text, document_text, entries_text};
ghost use Rattle.script_compare.specs.Shown.{entry_text, joined, members_at, name_at, rules_of, same_data, text_in};
ghost use Rattle.script_compare.specs.Shown.{text_of, title};

use crate::changes::decision_of;
use ent_json::{list_at, text_at};
use script_matching::have_same_data;
use serde_json::Value;
use std::alloc::{AllocError, Global};

/// A column of the table of changes.
#[derive(Clone, Copy, Debug, PartialEq, Eq)]
pub(crate) enum ChangeColumn {
    /// The person of the request.
    Person,
    /// The action.
    Action,
    /// The resource.
    Resource,
    /// The decision before.
    Before,
    /// The decision after.
    After,
    /// The rules that decided before.
    RulesBefore,
    /// The rules that decided after.
    RulesAfter,
    /// What else is another.
    Also,
}

/// The members of the list at a key; none where no list stands there.
///
/// Its contract is an equation.
pub fn members_at<'v>(object: &'v Value, key: &str) -> &'v [Value]
    ensures { map view result.now ≡ members_at key.now (view object.now) }
{
    match list_at(object, key) {
        Some(members) => members,
        None => &[],
    }
}

/// The text at a key of a cell, if there is one.
fn text_in_cell<'v>(cell: Option<&'v Value>, key: &str) -> Option<&'v str>
    ensures { option_map (λ s. s.now) result
        ≡ option_and_then (text_at key.now) (option_map (λ v. view v.now) cell.entry) }
{
    text_at(cell?, key)
}

/// The name of a request at a key, as the cell before tells it, or else the one after.
pub(crate) fn name_at<'v>(change: &'v Value, key: &str) -> &'v str
    ensures { result.now ≡ name_at key.now (view change.now) }
{
    match text_in_cell(change.get("before"), key) {
        Some(name) => name,
        None => text_in_cell(change.get("after"), key).unwrap_or(""),
    }
}

/// A text of a list, by its place; the empty one where none stands there.
///
/// Its contract is an equation.
pub fn text_of(list: &Value, place: usize) -> &str
    ensures { result.now ≡ text_of place (view list.now) }
{
    match list.get(place) {
        Some(member) => member.as_str().unwrap_or(""),
        None => "",
    }
}

/// Puts a document on the path to a rule behind others: its id and its version.
fn push_document(document: &Value, text: &mut Vec<u8>) -> Result<(), AllocError>
    ensures { OnOk result (text.new.items ≡ text.old.items ++ document_text (view document.now)) }
{
    text.extend_from_slice(text_of(document, 1).as_bytes())?;
    text.extend_from_slice(b" ")?;
    text.extend_from_slice(text_of(document, 2).as_bytes())?;
    text.extend_from_slice(b" > ")
}

/// Puts the documents on the path to a rule behind others.
fn push_documents(documents: &[Value], text: &mut Vec<u8>) -> Result<(), AllocError>
    ensures { OnOk result (text.new.items
        ≡ text.old.items ++ flat_map document_text (map view documents.now)) }
{
    for document in documents {
        push_document(document, text)?;
    }
    Ok(())
}

/// A rule that decided, behind the documents on the path to it.
fn entry_text(alloc: Global, entry: &Value) -> Result<Vec<u8>, AllocError>
    ensures { IfOk result (λ v. v.items ≡ entry_text (view entry.now)) }
{
    let mut text = Vec::new(alloc);
    push_documents(members_at(entry, "path"), &mut text)?;
    let rule = text_at(entry, "rule").unwrap_or("default");
    text.extend_from_slice(rule.as_bytes())?;
    Ok(text)
}

/// Puts a text behind others, with a comma between them.
fn push_joined(text: &[u8], texts: &mut Vec<u8>) -> Result<(), AllocError>
    ensures { OnOk result (texts.new.items ≡ joined texts.old.items text.now) }
{
    if !texts.is_empty() {
        texts.extend_from_slice(b", ")?;
    }
    texts.extend_from_slice(text)
}

/// Puts rules that decided behind others.
fn push_entries(alloc: Global, entries: &[Value], texts: &mut Vec<u8>) -> Result<(), AllocError>
    ensures { OnOk result (texts.new.items ≡ entries_text texts.old.items (map view entries.now)) }
{
    for entry in entries {
        let text = entry_text(alloc, entry)?;
        push_joined(text.as_slice(), texts)?;
    }
    Ok(())
}

/// The rules that decided a cell, if there is one.
pub(crate) fn rules_of(alloc: Global, cell: Option<&Value>) -> Result<Vec<u8>, AllocError>
    ensures { IfOk result (λ v. v.items ≡ rules_of (option_map (λ v. view v.now) cell.entry)) }
{
    let mut texts = Vec::new(alloc);
    if let Some(cell) = cell {
        push_entries(alloc, members_at(cell, "why"), &mut texts)?;
    }
    Ok(texts)
}

/// Whether the same stands in two places, or nothing in both.
fn same_data(before: Option<&Value>, after: Option<&Value>) -> bool
    ensures { result
        ≡ same_data (option_map (λ v. view v.now) before.entry) (option_map (λ v. view v.now) after.entry) }
{
    match (before, after) {
        (Some(before), Some(after)) => have_same_data(before, after),
        (None, None) => true,
        _ => false,
    }
}

/// Puts a key behind others, if two cells have something else there.
fn push_also(key: &str, before: &Value, after: &Value, keys: &mut Vec<u8>) -> Result<(), AllocError>
    ensures { OnOk result (keys.new.items
        ≡ also_at key.now (view before.now) (view after.now) keys.old.items) }
{
    if same_data(before.get(key), after.get(key)) {
        return Ok(());
    }
    push_joined(key.as_bytes(), keys)
}

/// What else is another, beside decisions and rules, of two cells.
fn also_of(alloc: Global, before: &Value, after: &Value) -> Result<Vec<u8>, AllocError>
    ensures { IfOk result (λ v. v.items ≡ also_of (view before.now) (view after.now)) }
{
    let mut keys = Vec::new(alloc);
    push_also("status", before, after, &mut keys)?;
    push_also("obligations", before, after, &mut keys)?;
    push_also("advice", before, after, &mut keys)?;
    Ok(keys)
}

/// What else is another of two cells, if both are there.
fn also_between(
    alloc: Global,
    before: Option<&Value>,
    after: Option<&Value>,
) -> Result<Vec<u8>, AllocError>
    ensures { IfOk result (λ v. v.items
        ≡ also_between (option_map (λ v. view v.now) before.entry) (option_map (λ v. view v.now) after.entry)) }
{
    match (before, after) {
        (Some(before), Some(after))
            if before.as_object().is_some() && after.as_object().is_some() => {
            also_of(alloc, before, after)
        }
        _ => Ok(Vec::new(alloc)),
    }
}

/// What stands above a column.
fn title(column: ChangeColumn) -> &'static str
    ensures { result.now ≡ title column }
{
    match column {
        ChangeColumn::Person => "person",
        ChangeColumn::Action => "action",
        ChangeColumn::Resource => "resource",
        ChangeColumn::Before => "before",
        ChangeColumn::After => "after",
        ChangeColumn::RulesBefore => "rules before",
        ChangeColumn::RulesAfter => "rules after",
        ChangeColumn::Also => "also another",
    }
}

/// What stands in a column of the row of a change.
fn cell_text(alloc: Global, column: ChangeColumn, change: &Value) -> Result<Vec<u8>, AllocError>
    ensures { IfOk result (λ v. v.items ≡ cell_text column (view change.now)) }
{
    let before = change.get("before");
    let after = change.get("after");
    match column {
        ChangeColumn::Person => Vec::from_slice(alloc, name_at(change, "person").as_bytes()),
        ChangeColumn::Action => Vec::from_slice(alloc, name_at(change, "action").as_bytes()),
        ChangeColumn::Resource => Vec::from_slice(alloc, name_at(change, "resource").as_bytes()),
        ChangeColumn::Before => Vec::from_slice(alloc, decision_of(before).as_bytes()),
        ChangeColumn::After => Vec::from_slice(alloc, decision_of(after).as_bytes()),
        ChangeColumn::RulesBefore => rules_of(alloc, before),
        ChangeColumn::RulesAfter => rules_of(alloc, after),
        ChangeColumn::Also => also_between(alloc, before, after),
    }
}

/// What stands in a column of the row of a change, or of the first row.
#[tactic(auto, unfolding(crate::specs::Shown::text_in))]
pub(crate) fn text_in(
    alloc: Global,
    column: ChangeColumn,
    line: Option<&Value>,
) -> Result<Vec<u8>, AllocError>
    ensures { IfOk result (λ v. v.items ≡ text_in column (option_map (λ v. view v.now) line.entry)) }
{
    match line {
        Some(change) => cell_text(alloc, column, change),
        None => Vec::from_slice(alloc, title(column).as_bytes()),
    }
}
