//! The names that lines list.

ghost use Rattle.std.specs.Prelude.{◌≡◌, ◌||◌, false, IfOk, OnOk, map, option_map, option_and_then};
ghost use Rattle.std.specs.Option.{option_to_list};
ghost use Rattle.lint_declared.specs.Settings.{category_listed, has_name, listed_by, names_in};
ghost use Rattle.ent_json.specs.Line.{data_of};
ghost use Rattle.lint_declared.specs.declared.listed.ListedName.{ListedName};

use crate::always::{ACCESS_SUBJECT, ACTION, RESOURCE};
use crate::near::Candidates;
use ent_json::{JsonTree, read_json, text_at};
use ent_values::Text;
use json::Scratch;
use std::alloc::{AllocError, Global};
use std::collections::BTreeSet;
use std::marker::Model;

/// A name of a person, an action or a resource, by the category of its attributes (appendix B.2).
#[derive(PartialEq, Eq, PartialOrd, Ord, Drop)]
pub struct ListedName {
    pub category: Text,
    pub name: Text,
}

/// The names of a table.
#[derive(Drop)]
pub struct Listed {
    pub(crate) names: BTreeSet<ListedName>,
}

impl Model for Listed {
    ghost use Rattle.std.specs.Prelude.{List};
    ghost use Rattle.lint_declared.specs.declared.listed.ListedName.{ListedName};

    ghost Value = { List ListedName };

    ghost view = { λ l. l.names.keys };
}

/// The category whose names a command lists.
pub(crate) fn category_listed(word: &str) -> Option<&'static str>
    ensures { option_map (λ s. s.now) result ≡ category_listed word.now }
{
    if word == "person.add" {
        Some(ACCESS_SUBJECT)
    } else if word == "action.add" {
        Some(ACTION)
    } else if word == "resource.add" {
        Some(RESOURCE)
    } else {
        None
    }
}

/// The name that a line lists, if it does.
#[tactic(auto, unfolding(crate::specs::Settings::listed_by))]
pub(crate) fn listed_by<J: JsonTree>(
    alloc: Global,
    line: &J,
) -> Result<Option<ListedName>, AllocError>
    ensures { IfOk result (λ o. o ≡ listed_by (J.content line.now)) }
{
    let Some(category) = text_at(line, "do").and_then(category_listed) else {
        return Ok(None);
    };
    let Some(name) = text_at(line, "name") else {
        return Ok(None);
    };
    Ok(Some(ListedName {
        category: Text::from_str(alloc, category)?,
        name: Text::from_str(alloc, name)?,
    }))
}

/// The name that the text of a line lists, if it does.
fn name_in(alloc: Global, line: &[u8]) -> Result<Option<ListedName>, AllocError>
    ensures { IfOk result (λ o. o ≡ option_and_then listed_by (data_of line.now)) }
{
    let mut scratch = Scratch::new(alloc);
    match read_json(alloc, line, &mut scratch)? {
        None => Ok(None),
        Some(json) => listed_by(alloc, &json),
    }
}

/// Adds a name, if there is one.
fn add(names: &mut BTreeSet<ListedName>, name: Option<ListedName>) -> Result<(), AllocError>
    ensures { OnOk result ((other : ListedName)
        → has_name other names.new.keys ≡ (has_name other names.old.keys || has_name other (option_to_list name))) }
{
    if let Some(name) = name {
        names.insert(name)?;
    }
    Ok(())
}

/// Adds the names that these lines list.
fn add_all(
    alloc: Global,
    names: &mut BTreeSet<ListedName>,
    lines: &[&[u8]],
) -> Result<(), AllocError>
    ensures { OnOk result ((name : ListedName) → has_name name names.new.keys
        ≡ (has_name name names.old.keys || has_name name (names_in (map (λ l. l.now) lines.now)))) }
{
    for line in lines {
        let name = name_in(alloc, line)?;
        add(names, name)?;
    }
    Ok(())
}

impl Listed {
    /// No names.
    ///
    /// Its contract is an equation.
    pub fn new(alloc: Global) -> Listed
        ensures { (name : ListedName) → has_name name result ≡ false }
    {
        Listed {
            names: BTreeSet::new(alloc),
        }
    }

    /// Whether a name is among them, in time logarithmic in their number. It takes no memory.
    ///
    /// Its contract is an equation.
    pub(crate) fn has(&self, name: &ListedName) -> bool
        ensures { result ≡ has_name name.now self.now }
    {
        self.names.contains(name)
    }

    /// Adds the names that these lines list: those of `person.add`, `action.add` and `resource.add`.
    ///
    /// # Errors
    ///
    /// `AllocError` if memory runs out: then some may have been added.
    ///
    /// Its contract is an equation but for memory.
    pub fn read(&mut self, alloc: Global, lines: &[&[u8]]) -> Result<(), AllocError>
        ensures { OnOk result ((name : ListedName)
            → has_name name self.new
            ≡ (has_name name self.old || has_name name (names_in (map (λ l. l.now) lines.now)))) }
    {
        add_all(alloc, &mut self.names, lines)
    }

    /// The name of the same category that is nearest to one that isn't among them, if one is near.
    pub(crate) fn nearest(
        &self,
        alloc: Global,
        wanted: &ListedName,
    ) -> Result<Option<Text>, AllocError> {
        let mut candidates = Candidates::new(alloc, wanted.name.as_str());
        for name in &self.names {
            if name.category == wanted.category {
                candidates.take(alloc, name.name.as_str())?;
            }
        }
        candidates.nearest(alloc)
    }
}
