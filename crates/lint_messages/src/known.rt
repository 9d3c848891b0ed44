//! Which known identifier is nearest to one that isn't known. Identifiers are compared by their last words.

use crate::near::{NearestWord, nearest};
use crate::words::last_word;
use ent_combine::{PolicyAlg, RuleAlg};
use ent_functions::{Comparison, Element, Function, Ordered};
use ent_values::{DataType, Text};
use std::alloc::{AllocError, Global};

/// Functions on texts that a match may have.
const MATCHES: &[Function] = &[Function::StartsWith, Function::EndsWith, Function::Contains];

/// The identifiers of the functions that a match may have.
fn match_ids(alloc: Global) -> Result<Vec<Text>, AllocError> {
    let mut ids = Vec::new(alloc);
    for element in Element::ALL {
        ids.push(Function::Equal(*element).id(alloc)?)?;
    }
    for order in Ordered::ALL {
        for comparison in Comparison::ALL {
            ids.push(Function::Compare(*comparison, *order).id(alloc)?)?;
        }
    }
    for function in MATCHES {
        ids.push(function.id(alloc)?)?;
    }
    Ok(ids)
}

/// The identifiers of all functions.
fn function_ids(alloc: Global) -> Result<Vec<Text>, AllocError> {
    let mut ids = Vec::new(alloc);
    for element in Element::ALL {
        for function in element.functions() {
            ids.push(function.id(alloc)?)?;
        }
    }
    for order in Ordered::ALL {
        for comparison in Comparison::ALL {
            ids.push(Function::Compare(*comparison, *order).id(alloc)?)?;
        }
    }
    for function in Function::SINGLE {
        ids.push(function.id(alloc)?)?;
    }
    Ok(ids)
}

/// The identifier of the function whose name is nearest, if one is near; of a match, among those that it may have.
pub(crate) fn nearest_function(
    alloc: Global,
    id: &str,
    in_match: bool,
) -> Result<Option<Text>, AllocError> {
    let mut search = NearestWord::new(last_word(id));
    let mut best = None;
    let candidates = if in_match {
        match_ids(alloc)?
    } else {
        function_ids(alloc)?
    };
    for candidate in candidates {
        if search.is_nearer(alloc, last_word(candidate.as_str()))? {
            best = Some(candidate);
        }
    }
    Ok(best)
}

const RULE_ALGORITHMS: &[RuleAlg] = &[
    RuleAlg::DenyOverrides,
    RuleAlg::PermitOverrides,
    RuleAlg::OrderedDenyOverrides,
    RuleAlg::OrderedPermitOverrides,
    RuleAlg::DenyUnlessPermit,
    RuleAlg::PermitUnlessDeny,
    RuleAlg::FirstApplicable,
];

/// The one of these identifiers whose last word is nearest, if one is near.
fn nearest_id(
    alloc: Global,
    id: &str,
    known: &[&'static str],
) -> Result<Option<&'static str>, AllocError> {
    let mut search = NearestWord::new(last_word(id));
    let mut best = None;
    for candidate in known {
        if search.is_nearer(alloc, last_word(candidate))? {
            best = Some(*candidate);
        }
    }
    Ok(best)
}

/// The identifier of the rule combining algorithm whose name is nearest, if one is near.
pub(crate) fn nearest_rule_algorithm(
    alloc: Global,
    id: &str,
) -> Result<Option<&'static str>, AllocError> {
    let mut known = Vec::new(alloc);
    for algorithm in RULE_ALGORITHMS {
        known.push(algorithm.rule_id())?;
    }
    nearest_id(alloc, id, known.as_slice())
}

/// The identifier of the policy combining algorithm whose name is nearest, if one is near.
pub(crate) fn nearest_policy_algorithm(
    alloc: Global,
    id: &str,
) -> Result<Option<&'static str>, AllocError> {
    let mut known = Vec::new(alloc);
    for algorithm in RULE_ALGORITHMS {
        known.push(PolicyAlg::Shared(*algorithm).id())?;
    }
    known.push(PolicyAlg::OnlyOne.id())?;
    nearest_id(alloc, id, known.as_slice())
}

/// The short name of the data type that is nearest, if one is near.
pub(crate) fn nearest_type(alloc: Global, name: &str) -> Result<Option<&'static str>, AllocError> {
    let mut known = Vec::new(alloc);
    for datatype in DataType::ALL {
        known.push(datatype.short_name())?;
    }
    nearest(alloc, last_word(name), known.as_slice())
}
