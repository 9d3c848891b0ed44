//! What is too long or too deep in a part.

use crate::asked::FaultPlace;
use crate::scan::MOST_OPEN;
use ent_json::{JsonTree, list_at};
use lint_places::Part;
use std::alloc::AllocError;

/// The most members of a list.
const MOST_MEMBERS: usize = 256;

/// The most references of a document.
const MOST_REFERENCES: usize = 32;

/// What is too long in a part.
pub(crate) fn size_sentence<J: JsonTree>(asked: &FaultPlace<'_, J>) -> Result<String, AllocError> {
    let alloc = asked.alloc;
    let key = asked.key;
    let members = match asked.json.as_array() {
        Some(members) => members.len(),
        None => 0,
    };
    if members > MOST_MEMBERS {
        return format!(in alloc; "`{key}` has {members} members; it has at most {MOST_MEMBERS}");
    }
    let references = references_in(asked);
    if references > MOST_REFERENCES {
        return format!(in alloc;
            "{references} references stand here; a document has at most {MOST_REFERENCES}"
        );
    }
    let sentence = match asked.part {
        Part::Definition => {
            "through this definition, a policy has more than 65536 expressions, with those of the variables that they name"
        }
        _ => "more than 65536 expressions stand here, with those of the variables that they name",
    };
    String::from_str(alloc, sentence)
}

/// How many references stand in a part that may have some.
fn references_in<J: JsonTree>(asked: &FaultPlace<'_, J>) -> usize {
    match asked.part {
        Part::Document | Part::Child => references_of_child(asked.json, MOST_OPEN),
        Part::Set => references_of_set(asked.json, MOST_OPEN),
        Part::Children => match asked.json.as_array() {
            Some(children) => references_of_children(children, MOST_OPEN),
            None => 0,
        },
        _ => 0,
    }
}

/// How many references a child of a set has, looked into that many levels deep.
#[cycle(references)]
fn references_of_child<J: JsonTree>(child: &J, levels: usize) -> usize {
    if levels == 0 {
        return 0;
    }
    let Some((key, body)) = child.one_member() else {
        return 0;
    };
    if key == "PolicySet" {
        return references_of_set(body, levels - 1);
    }
    if key == "PolicyIdReference" || key == "PolicySetIdReference" {
        return 1;
    }
    0
}

/// How many references a set has.
#[cycle(references)]
fn references_of_set<J: JsonTree>(set: &J, levels: usize) -> usize {
    match list_at(set, "Children") {
        Some(children) => references_of_children(children, levels),
        None => 0,
    }
}

/// How many references some children have together.
#[cycle(references)]
fn references_of_children<J: JsonTree>(children: &[J], levels: usize) -> usize {
    let mut count = 0usize;
    for child in children {
        count = count.saturating_add(references_of_child(child, levels));
    }
    count
}

/// What is too deep in a part.
pub(crate) fn depth_sentence<J: JsonTree>(asked: &FaultPlace<'_, J>) -> Result<String, AllocError> {
    let sentence = match asked.part {
        Part::Document | Part::Set | Part::Child | Part::Children => {
            "policy sets stand in each other more than 16 levels deep"
        }
        Part::Definition => {
            "through this definition, an expression has more than 16 levels, with those of the variables that it names"
        }
        _ => "an expression has more than 16 levels, with those of the variables that it names",
    };
    String::from_str(asked.alloc, sentence)
}
