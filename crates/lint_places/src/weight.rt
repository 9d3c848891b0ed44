//! How much is judged, so that it can be bounded: by the JSON values that stand in parts.

use crate::members::listed;
use crate::part::Part;
use crate::place::Place;
use ent_json::JsonTree;
use std::alloc::{AllocError, Global};

/// How many values stand in a part, itself among them.
#[cycle(weigh)]
fn weight<J: JsonTree>(part: Part, json: &J) -> usize {
    let at_keys = weight_at_keys(part, json);
    let in_list = weight_in_list(part, json);
    at_keys.saturating_add(in_list).saturating_add(1)
}

/// How many values stand at the keys of a part.
#[cycle(weigh)]
fn weight_at_keys<J: JsonTree>(part: Part, json: &J) -> usize {
    let mut sum = 0usize;
    for row in part.rows() {
        sum = sum.saturating_add(weight_at_key(row.0, row.1, json));
    }
    sum
}

/// How many values stand at a key.
#[cycle(weigh)]
fn weight_at_key<J: JsonTree>(key: &str, part: Part, json: &J) -> usize {
    match json.get(key) {
        Some(value) => weight(part, value),
        None => 0,
    }
}

/// How many values stand in a part that is a list.
#[cycle(weigh)]
fn weight_in_list<J: JsonTree>(part: Part, json: &J) -> usize {
    let Some(item) = part.item() else {
        return 0;
    };
    let Some(members) = json.as_array() else {
        return 0;
    };
    let mut sum = 0usize;
    for member in members {
        sum = sum.saturating_add(weight(item, member));
    }
    sum
}

/// How many values stand in some definitions.
fn weight_of_all<J: JsonTree>(definitions: &[J]) -> usize {
    let mut sum = 0usize;
    for definition in definitions {
        sum = sum.saturating_add(weight(Part::Definition, definition));
    }
    sum
}

/// Whether a part is judged with the definitions around it: it is no text, flag or literal.
fn is_judged_with_definitions(part: Part) -> bool {
    part.item().is_some() || !part.rows().is_empty()
}

impl<'a, J: JsonTree> Place<'a, J> {
    /// How many parts one level inside of this one are judged with the definitions around them.
    fn count_inside(&self) -> usize {
        let mut count = match self.part.item() {
            Some(_) => listed(Some(self.json)).len(),
            None => 0,
        };
        for row in self.part.rows() {
            if is_judged_with_definitions(row.1) && self.json.get(row.0).is_some() {
                count = count.saturating_add(1);
            }
        }
        count
    }

    /// The definitions with which the parts one level inside of this one are judged.
    fn definitions_inside(&self, alloc: Global) -> Result<&'a [J], AllocError> {
        match self.part {
            Part::Definitions => Ok(listed(Some(self.json))),
            _ => Ok(self.scope_inside(alloc)?.definitions),
        }
    }

    /// How many values are judged where each part one level inside of this one is judged with the definitions around
    /// it, and these once more alone.
    pub(crate) fn cost_inside(&self, alloc: Global) -> Result<usize, AllocError> {
        let around = weight_of_all(self.definitions_inside(alloc)?).saturating_mul(2);
        let own = weight(self.part, self.json);
        Ok(
            self.count_inside()
                .saturating_mul(around)
                .saturating_add(own),
        )
    }
}
