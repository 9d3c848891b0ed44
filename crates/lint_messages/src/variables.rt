//! What is wrong with the variables of a policy.

use crate::asked::FaultPlace;
use crate::near::{did_you_mean, nearest};
use crate::scan::MOST_OPEN;
use crate::types::definition_of;
use crate::words::quoted;
use ent_json::{JsonTree, list_at, text_at};
use lint_places::Part;
use std::alloc::{AllocError, Global};
use std::collections::BTreeSet;

/// What is wrong with the variables at a place, where it can be told.
pub(crate) fn variable_sentence<J: JsonTree>(
    asked: &FaultPlace<'_, J>,
) -> Result<Option<String>, AllocError> {
    match asked.part {
        Part::VariableReference => Ok(Some(undefined_sentence(asked)?)),
        Part::Definition => Ok(Some(circle_sentence(asked)?)),
        Part::Definitions => definitions_sentence(asked),
        _ => Ok(None),
    }
}

/// The ids of some definitions.
fn ids_of<'a, J: JsonTree>(
    alloc: Global,
    definitions: &'a [J],
) -> Result<Vec<&'a str>, AllocError> {
    let mut ids = Vec::new(alloc);
    for definition in definitions {
        if let Some(id) = text_at(definition, "VariableId") {
            ids.push(id)?;
        }
    }
    Ok(ids)
}

/// That a variable isn't defined.
pub(crate) fn undefined_sentence<J: JsonTree>(
    asked: &FaultPlace<'_, J>,
) -> Result<String, AllocError> {
    let alloc = asked.alloc;
    let id = text_at(asked.json, "VariableId").unwrap_or("");
    let shown = quoted(alloc, id)?;
    if asked.definitions.is_empty() {
        return format!(in alloc; "no variable is called {shown}; none is defined here");
    }
    let known = ids_of(alloc, asked.definitions)?;
    let meant = did_you_mean(alloc, nearest(alloc, id, known.as_slice())?)?;
    format!(in alloc; "no variable of the policy is called {shown}{meant}")
}

/// Whether a variable is defined.
pub(crate) fn is_defined<J: JsonTree>(definitions: &[J], id: &str) -> bool {
    definition_of(definitions, id).is_some()
}

/// Notes the variables that an expression names, looked into that many levels deep.
#[cycle(names)]
fn note_names<'a, J: JsonTree>(
    json: &'a J,
    levels: usize,
    names: &mut Vec<&'a str>,
) -> Result<(), AllocError> {
    if levels == 0 {
        return Ok(());
    }
    let Some((_, body)) = json.one_member() else {
        return Ok(());
    };
    if let Some(id) = text_at(body, "VariableId") {
        names.push(id)?;
    }
    match list_at(body, "Arguments") {
        Some(arguments) => note_all_names(arguments, levels - 1, names),
        None => Ok(()),
    }
}

/// Puts the names last that some expressions use, looked into so many levels deep.
#[cycle(names)]
fn note_all_names<'a, J: JsonTree>(
    arguments: &'a [J],
    levels: usize,
    names: &mut Vec<&'a str>,
) -> Result<(), AllocError> {
    for argument in arguments {
        note_names(argument, levels, names)?;
    }
    Ok(())
}

/// The variables that the definition of a variable names.
fn names_of<'a, J: JsonTree>(
    alloc: Global,
    definitions: &'a [J],
    id: &str,
) -> Result<Vec<&'a str>, AllocError> {
    let mut names = Vec::new(alloc);
    if let Some(expression) = definition_of(definitions, id) {
        note_names(expression, MOST_OPEN, &mut names)?;
    }
    Ok(names)
}

/// Whether a variable leads back to itself. Each variable to which it leads is looked into once, and there are no more
/// of them than definitions.
pub(crate) fn leads_back<J: JsonTree>(
    alloc: Global,
    definitions: &[J],
    id: &str,
) -> Result<bool, AllocError> {
    let mut seen: BTreeSet<&str> = BTreeSet::new(alloc);
    let mut open = names_of(alloc, definitions, id)?;
    for _ in 0..u64::MAX {
        let Some(next) = open.pop() else {
            return Ok(false);
        };
        if next == id {
            return Ok(true);
        }
        if seen.insert(next)? {
            for name in names_of(alloc, definitions, next)? {
                open.push(name)?;
            }
        }
    }
    Ok(false)
}

/// That a variable leads back to itself.
fn circle_sentence<J: JsonTree>(asked: &FaultPlace<'_, J>) -> Result<String, AllocError> {
    let alloc = asked.alloc;
    let id = quoted(alloc, text_at(asked.json, "VariableId").unwrap_or(""))?;
    format!(in alloc; "{id} is defined through itself")
}

/// That a variable is defined twice, or else that more than one isn't as it should be.
fn definitions_sentence<J: JsonTree>(
    asked: &FaultPlace<'_, J>,
) -> Result<Option<String>, AllocError> {
    let alloc = asked.alloc;
    let Some(definitions) = asked.json.as_array() else {
        return Ok(None);
    };
    let mut seen: BTreeSet<&str> = BTreeSet::new(alloc);
    for id in ids_of(alloc, definitions)? {
        if !seen.insert(id)? {
            let id = quoted(alloc, id)?;
            return Ok(Some(format!(in alloc; "two variables of the policy are called {id}")?));
        }
    }
    Ok(None)
}
