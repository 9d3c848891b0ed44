//! What is wrong at a place of a document, in one sentence.

use crate::asked::{FaultPlace, FoundFault, here};
use crate::definitions::definition_fault;
use crate::form::form_fault;
use crate::names::{algorithm_sentence, function_sentence, identifier_sentence, version_sentence};
use crate::sizes::{depth_sentence, size_sentence};
use crate::typing::type_sentence;
use crate::variables::variable_sentence;
use ent_json::JsonTree;
use ent_policy::DocFault;
use std::alloc::AllocError;

/// What is wrong at a place that has that fault.
pub(crate) fn found<'a, J: JsonTree>(
    asked: &FaultPlace<'a, J>,
    fault: DocFault,
) -> Result<FoundFault<'a>, AllocError> {
    if fault == DocFault::Form {
        return form_fault(asked);
    }
    if let Some(sentence) = sentence(asked, fault)? {
        return Ok(here(asked, sentence));
    }
    if let Some(found) = definition_fault(asked, fault)? {
        return Ok(found);
    }
    let sentence = fault.to_string(asked.alloc)?;
    Ok(here(asked, sentence))
}

/// What is wrong, where it can be told more exactly than by the fault alone.
fn sentence<J: JsonTree>(
    asked: &FaultPlace<'_, J>,
    fault: DocFault,
) -> Result<Option<String>, AllocError> {
    match fault {
        DocFault::Form => Ok(None),
        DocFault::Identifier => identifier_sentence(asked),
        DocFault::Version => text_only(asked, version_sentence(asked)?),
        DocFault::Algorithm => text_only(asked, algorithm_sentence(asked)?),
        DocFault::Function => text_only(asked, function_sentence(asked)?),
        DocFault::Variable => variable_sentence(asked),
        DocFault::Size => Ok(Some(size_sentence(asked)?)),
        DocFault::Depth => Ok(Some(depth_sentence(asked)?)),
        DocFault::Type => type_sentence(asked),
    }
}

/// The sentence on a text, where a text stands there.
fn text_only<J: JsonTree>(
    asked: &FaultPlace<'_, J>,
    sentence: String,
) -> Result<Option<String>, AllocError> {
    if asked.json.as_str().is_some() {
        Ok(Some(sentence))
    } else {
        Ok(None)
    }
}
