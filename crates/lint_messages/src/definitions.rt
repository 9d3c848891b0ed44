//! The first fault in the variable definitions of a policy, where the place of the fault is one of them or all of them.

use crate::asked::{FaultPlace, FoundFault, here};
use crate::position::text_at;
use crate::scan::{MOST_OPEN, Members};
use crate::typing::own_type_sentence;
use crate::variables::{is_defined, leads_back, undefined_sentence};
use crate::words::quoted;
use ent_json::{JsonTree, list_at, text_at as id_at};
use ent_policy::DocFault;
use lint_places::Part;
use std::alloc::AllocError;

/// The most definitions that are looked into: as many as a policy may have.
const MOST: usize = 256;

/// What is wrong in the first definition that has such a fault, where the place is among definitions.
pub(crate) fn definition_fault<'a, J: JsonTree>(
    asked: &FaultPlace<'a, J>,
    fault: DocFault,
) -> Result<Option<FoundFault<'a>>, AllocError> {
    let definitions = match asked.part {
        Part::Definitions => asked.json.as_array().unwrap_or(&[]),
        Part::Definition => asked.definitions,
        _ => return Ok(None),
    };
    if definitions.len() > MOST {
        return Ok(None);
    }
    let mut members = Members::of(asked.list);
    for definition in definitions {
        let inner = FaultPlace {
            alloc: asked.alloc,
            part: Part::Definition,
            key: "",
            json: definition,
            definitions,
            text: next_text(&mut members, asked.list),
            list: asked.list,
        };
        if let Some(found) = fault_of_definition(&inner, fault)? {
            return Ok(Some(found));
        }
    }
    Ok(None)
}

/// The text from the next member of a list on; that of the list where there is none.
fn next_text<'a>(members: &mut Members<'a>, list: &'a [u8]) -> &'a [u8] {
    match members.pass() {
        Some(member) => member.value,
        None => list,
    }
}

/// What is wrong in a definition.
fn fault_of_definition<'a, J: JsonTree>(
    asked: &FaultPlace<'a, J>,
    fault: DocFault,
) -> Result<Option<FoundFault<'a>>, AllocError> {
    let alloc = asked.alloc;
    let id = id_at(asked.json, "VariableId").unwrap_or("");
    let Some(expression) = asked.json.get("Expression") else {
        return Ok(None);
    };
    let inner = inside(asked, Part::Expression, "/Expression", expression)?;
    if let Some(found) = fault_in(&inner, fault, MOST_OPEN)? {
        let id = quoted(alloc, id)?;
        let cause = found.sentence;
        let sentence = format!(in alloc; "in the definition of {id}, {cause}")?;
        let text = found.text;
        return Ok(Some(FoundFault { sentence, text }));
    }
    if fault == DocFault::Variable && leads_back(alloc, asked.definitions, id)? {
        let id = quoted(alloc, id)?;
        let sentence = format!(in alloc; "{id} is defined through itself")?;
        return Ok(Some(here(asked, sentence)));
    }
    Ok(None)
}

/// What stands in a part, at that pointer from there.
fn inside<'a, J: JsonTree>(
    asked: &FaultPlace<'a, J>,
    part: Part,
    pointer: &str,
    json: &'a J,
) -> Result<FaultPlace<'a, J>, AllocError> {
    Ok(FaultPlace {
        alloc: asked.alloc,
        part,
        key: "",
        json,
        definitions: asked.definitions,
        text: text_at(asked.alloc, asked.text, pointer)?,
        list: asked.list,
    })
}

/// What is wrong with an expression or the first of its arguments that has such a fault, looked into that many levels
/// deep.
#[cycle(fault_in)]
fn fault_in<'a, J: JsonTree>(
    asked: &FaultPlace<'a, J>,
    fault: DocFault,
    levels: usize,
) -> Result<Option<FoundFault<'a>>, AllocError> {
    let alloc = asked.alloc;
    if levels == 0 {
        return Ok(None);
    }
    let Some((key, body)) = asked.json.one_member() else {
        return Ok(None);
    };
    let Some(part) = part_at(key) else {
        return Ok(None);
    };
    let step = format!(in alloc; "/{key}")?;
    let inner = inside(asked, part, step.as_str(), body)?;
    if let Some(found) = fault_in_arguments(&inner, fault, levels - 1)? {
        return Ok(Some(found));
    }
    match own_sentence(&inner, fault)? {
        Some(sentence) => Ok(Some(here(&inner, sentence))),
        None => Ok(None),
    }
}

/// What is wrong with the first argument that has such a fault; nothing of what has no arguments.
#[cycle(fault_in)]
fn fault_in_arguments<'a, J: JsonTree>(
    asked: &FaultPlace<'a, J>,
    fault: DocFault,
    levels: usize,
) -> Result<Option<FoundFault<'a>>, AllocError> {
    let Some(arguments) = list_at(asked.json, "Arguments") else {
        return Ok(None);
    };
    let list = text_at(asked.alloc, asked.text, "/Arguments")?;
    let mut members = Members::of(list);
    for argument in arguments {
        let inner = FaultPlace {
            alloc: asked.alloc,
            part: Part::Argument,
            key: "",
            json: argument,
            definitions: asked.definitions,
            text: next_text(&mut members, list),
            list: asked.list,
        };
        if let Some(found) = fault_in(&inner, fault, levels)? {
            return Ok(Some(found));
        }
    }
    Ok(None)
}

/// The part that stands at a key of an expression.
fn part_at(key: &str) -> Option<Part> {
    for (known, part) in Part::Expression.rows() {
        if *known == key {
            return Some(*part);
        }
    }
    None
}

/// What is wrong with a part itself.
fn own_sentence<J: JsonTree>(
    asked: &FaultPlace<'_, J>,
    fault: DocFault,
) -> Result<Option<String>, AllocError> {
    match fault {
        DocFault::Type => own_type_sentence(asked),
        DocFault::Variable => {
            let id = id_at(asked.json, "VariableId").unwrap_or("");
            if asked.part != Part::VariableReference || is_defined(asked.definitions, id) {
                return Ok(None);
            }
            Ok(Some(undefined_sentence(asked)?))
        }
        _ => Ok(None),
    }
}
