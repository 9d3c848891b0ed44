//! The rules of the documents that the reply to `dump` tells, and which of them gave decisions.

use crate::policies::push_policies;
use crate::rules::{RuleName, push_rules, unseen};
use crate::seen::see_reply;
use crate::telling::{shown, told};
use script_compare::{members_at, names_text, value_of};
use serde_json::{Map, Value, put};
use std::alloc::{AllocError, Global};

/// How many levels of sets a policy may stand in, and its own.
const LEVELS: usize = 17;

/// The commands of a dump: those that store documents have them at `document`.
///
/// Its contract leaves open: all of it: that these are the lines of a dump, each as JSON, is tried.
pub fn commands_in(alloc: Global, dump: &Value) -> Result<Vec<Value>, AllocError> {
    let mut commands = Vec::new(alloc);
    for line in members_at(dump, "dump") {
        if let Some(command) = value_of(alloc, line.as_str().unwrap_or("").as_bytes())? {
            commands.push(command)?;
        }
    }
    Ok(commands)
}

/// The rules of the documents that stand in some commands.
///
/// Its contract leaves open: all of it: that these are the rules of all documents, in their order, is tried.
pub fn rules_in<'v>(alloc: Global, commands: &'v [Value]) -> Result<Vec<RuleName<'v>>, AllocError> {
    let mut policies = Vec::new(alloc);
    for command in commands {
        if let Some(document) = command.get("document") {
            push_policies(LEVELS, document, &mut policies)?;
        }
    }
    let mut rules = Vec::new(alloc);
    for policy in policies.as_slice() {
        push_rules(policy, &mut rules)?;
    }
    Ok(rules)
}

/// Those of some rules that stand there for the first time.
///
/// Its contract leaves open: all of it: that each stands there once is tried.
pub fn distinct<'v>(
    alloc: Global,
    rules: &[RuleName<'v>],
) -> Result<Vec<RuleName<'v>>, AllocError> {
    let mut known = Map::new(alloc);
    let mut found = Vec::new(alloc);
    for name in rules {
        let key = names_text(alloc, name.policy, name.version, name.rule)?;
        if known.get(key.as_str()).is_none() {
            found.push(*name)?;
            put(&mut known, alloc, key.as_str(), Value::Null)?;
        }
    }
    Ok(found)
}

/// What is told of rules, of which these gave no decision: JSON or lines.
///
/// Its contract leaves open: all of it: it is what `told` or `shown` say, as a line.
pub fn told_text(
    alloc: Global,
    is_json: bool,
    count: usize,
    rules: &[RuleName<'_>],
) -> Result<Vec<u8>, AllocError> {
    if !is_json {
        return shown(alloc, count, rules);
    }
    let text = told(alloc, count, rules)?.to_string(alloc)?;
    let mut line = Vec::from_slice(alloc, text.as_bytes())?;
    line.push(b'\n')?;
    Ok(line)
}

/// What is told of the replies to `dump` and to `table` of a state.
///
/// Its contract leaves open: all of it: it is `told_text` of the rules of a dump that `unseen` gives for a table.
pub fn told_of(
    alloc: Global,
    is_json: bool,
    dump: &[u8],
    table: &[u8],
) -> Result<Vec<u8>, AllocError> {
    let mut seen = Map::new(alloc);
    see_reply(alloc, table, &mut seen)?;
    let Some(dump) = value_of(alloc, dump)? else {
        return Ok(Vec::new(alloc));
    };
    let commands = commands_in(alloc, &dump)?;
    let rules = rules_in(alloc, commands.as_slice())?;
    let missing = unseen(alloc, &seen, rules.as_slice())?;
    told_text(alloc, is_json, rules.len(), missing.as_slice())
}
