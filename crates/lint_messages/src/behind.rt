//! Rules that stand behind one that always decides.

use crate::never::note_never;
use crate::position::{position_of, text_at};
use crate::words::quoted;
use ent_combine::RuleAlg;
use ent_json::{JsonTree, list_at, text_at as id_at};
use std::alloc::{AllocError, Global};

/// How many sets may stand in each other, with what stands around each of them.
pub(crate) const LEVELS: usize = 17;

/// The most warnings that a document gets.
pub(crate) const MOST_WARNINGS: usize = 32;

/// Whether an effect decides, where a rule has it.
fn is_final(algorithm: RuleAlg, effect: &str) -> bool {
    match algorithm {
        RuleAlg::DenyOverrides | RuleAlg::OrderedDenyOverrides | RuleAlg::PermitUnlessDeny => {
            effect == "Deny"
        }
        RuleAlg::PermitOverrides | RuleAlg::OrderedPermitOverrides | RuleAlg::DenyUnlessPermit => {
            effect == "Permit"
        }
        RuleAlg::FirstApplicable => true,
    }
}

/// Whether each request matches the target of a rule.
fn is_for_all<J: JsonTree>(rule: &J) -> bool {
    match rule.get("Target") {
        None => true,
        Some(target) => match list_at(target, "AnyOf") {
            None => true,
            Some(members) => members.is_empty(),
        },
    }
}

/// Whether each assignment of these obligations or advice is of a literal.
fn are_literals<J: JsonTree>(rule: &J, key: &str) -> bool {
    for given in list_at(rule, key).unwrap_or(&[]) {
        let assignments = list_at(given, "AttributeAssignmentExpression").unwrap_or(&[]);
        if !assignments.iter().all(|each| is_literal(each)) {
            return false;
        }
    }
    true
}

/// Whether an assignment is of a literal.
fn is_literal<J: JsonTree>(assignment: &J) -> bool {
    match assignment.get("Expression") {
        Some(expression) => expression.get("AttributeValue").is_some(),
        None => false,
    }
}

/// Whether a rule has its effect for each request.
fn is_sure<J: JsonTree>(rule: &J) -> bool {
    is_for_all(rule)
        && rule.get("Condition").is_none()
        && are_literals(rule, "ObligationExpressions")
        && are_literals(rule, "AdviceExpressions")
}

/// The number of the first rule of a policy that always decides.
fn deciding<J: JsonTree>(policy: &J, rules: &[J]) -> Option<usize> {
    let algorithm = RuleAlg::from_id(id_at(policy, "RuleCombiningAlgId")?)?;
    rules.iter().position(|rule| is_sure(rule)
        && is_final(algorithm, id_at(rule, "Effect").unwrap_or("")))
}

/// Puts what is told of a policy last, if a rule stands behind one that always decides: the JSON pointer of the first
/// such rule, and what is told of it.
fn note_in_policy<J: JsonTree>(
    alloc: Global,
    text: &[u8],
    pointer: &str,
    policy: &J,
    told: &mut Vec<(String, String)>,
) -> Result<(), AllocError> {
    if told.len() >= MOST_WARNINGS {
        return Ok(());
    }
    let rules = list_at(policy, "Rule").unwrap_or(&[]);
    let Some(number) = deciding(policy, rules) else {
        return Ok(());
    };
    let behind = number.saturating_add(1);
    let (Some(rule), Some(_)) = (rules.get(number), rules.get(behind)) else {
        return Ok(());
    };
    let pointer = format!(in alloc; "{pointer}/Rule/{behind}")?;
    let position = position_of(text, text_at(alloc, text, pointer.as_str())?);
    let (line, column) = (position.line, position.column);
    let id = quoted(alloc, id_at(rule, "RuleId").unwrap_or(""))?;
    let sentence = format!(in alloc;
        "line {line}, column {column}: the rule {id} before this one always decides, so this one and those behind it never do"
    )?;
    told.push((pointer, sentence))?;
    Ok(())
}

/// Puts last what is told of rules of the policies in a document or in a child of a set, looked into so many levels
/// deep, and of their obligations and advice.
#[cycle(note_behind)]
pub(crate) fn note_behind<J: JsonTree>(
    alloc: Global,
    text: &[u8],
    pointer: &str,
    json: &J,
    levels: usize,
    told: &mut Vec<(String, String)>,
) -> Result<(), AllocError> {
    if levels == 0 {
        return Ok(());
    }
    if let Some(policy) = json.get("Policy") {
        let inner = format!(in alloc; "{pointer}/Policy")?;
        note_in_policy(alloc, text, inner.as_str(), policy, told)?;
        return note_never(alloc, text, inner.as_str(), policy, told);
    }
    match json.get("PolicySet") {
        Some(set) => note_in_children(alloc, text, pointer, set, levels - 1, told),
        None => Ok(()),
    }
}

/// Puts last what is told of the policies in the children of a set.
#[cycle(note_behind)]
fn note_in_children<J: JsonTree>(
    alloc: Global,
    text: &[u8],
    pointer: &str,
    set: &J,
    levels: usize,
    told: &mut Vec<(String, String)>,
) -> Result<(), AllocError> {
    for (number, child) in list_at(set, "Children").unwrap_or(&[]).iter().enumerate() {
        let inner = format!(in alloc; "{pointer}/PolicySet/Children/{number}")?;
        note_behind(alloc, text, inner.as_str(), child, levels, told)?;
    }
    Ok(())
}
