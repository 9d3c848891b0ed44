//! Which rules of the documents of tests give no decision in them.

use crate::testing::{TestPlan, is_chosen};
use cli_replies::{behind, push_asked, split_reply};
use cli_serve::replies_to;
use ent_wire::ServeFault;
use script_compare::value_of;
use script_coverage::{commands_in, distinct, rules_in, see_reply, told_text, unseen};
use script_files::{SentLine, Session, read_sessions};
use serde_json::{Map, Value, put};
use std::alloc::{AllocError, Global};

/// Which rules gave decisions in tests, and which documents were stored at their ends.
#[derive(Drop)]
pub(crate) struct Covered {
    seen: Map<String, Value>,
    commands: Vec<Value>,
    /// The reply to `dump` of the test before.
    dump: Vec<u8>,
}

/// How many rules there are, how many of them gave a decision, and what is told of those that gave none.
#[derive(Drop)]
pub(crate) struct Share {
    pub(crate) rules: usize,
    pub(crate) seen: usize,
    pub(crate) text: Vec<u8>,
}

/// A line that asks for an explanation of the answer that another asks for, or that other line.
fn explaining(alloc: Global, line: &[u8]) -> Result<Vec<u8>, AllocError> {
    let Some(Value::Object(mut command)) = value_of(alloc, line)? else {
        return Vec::from_slice(alloc, line);
    };
    let is_ask = match command.get("do") {
        Some(word) => word.as_str() == Some("ask"),
        None => false,
    };
    if !is_ask {
        return Vec::from_slice(alloc, line);
    }
    put(
        &mut command,
        alloc,
        "do",
        Value::try_from_str(alloc, "explain")?,
    )?;
    let text = Value::Object(command).to_string(alloc)?;
    Vec::from_slice(alloc, text.as_bytes())
}

/// What is sent to see which rules give the decisions of a test: the lines of the state and its own, of which each that
/// asks is explained, and then what asks for the documents.
fn covering(alloc: Global, state: &[SentLine], session: &Session) -> Result<Vec<u8>, AllocError> {
    let mut lines = Vec::new(alloc);
    push_asked(state, &mut lines)?;
    for step in session.steps.as_slice() {
        let line = explaining(alloc, step.line.as_slice())?;
        lines.extend_from_slice(line.as_slice())?;
        lines.push(b'\n')?;
    }
    lines.extend_from_slice(b"{\"do\":\"dump\"}\n")?;
    Ok(lines)
}

impl Covered {
    /// None yet.
    pub(crate) fn new(alloc: Global) -> Covered {
        Covered {
            seen: Map::new(alloc),
            commands: Vec::new(alloc),
            dump: Vec::new(alloc),
        }
    }

    /// Adds the documents that a reply to `dump` tells, unless they are those of the test before.
    fn store(&mut self, alloc: Global, reply: &[u8]) -> Result<(), AllocError> {
        if self.dump.as_slice() == reply {
            return Ok(());
        }
        self.dump = Vec::from_slice(alloc, reply)?;
        let Some(dump) = value_of(alloc, reply)? else {
            return Ok(());
        };
        for command in commands_in(alloc, &dump)? {
            self.commands.push(command)?;
        }
        Ok(())
    }

    /// Adds what the replies to a test tell, over a service of its own.
    fn add(
        &mut self,
        alloc: Global,
        plan: TestPlan<'_>,
        session: &Session,
    ) -> Result<(), ServeFault> {
        let lines = covering(alloc, plan.state, session)?;
        let replies = replies_to(alloc, plan.limits, session.modules, lines.as_slice())?;
        let mut rest = behind(plan.state, replies.as_slice());
        for _ in session.steps.as_slice() {
            let (reply, others) = split_reply(rest);
            see_reply(alloc, reply, &mut self.seen)?;
            rest = others;
        }
        let (dump, _) = split_reply(rest);
        self.store(alloc, dump)?;
        Ok(())
    }

    /// Adds what those of the tests of a file tell that run.
    pub(crate) fn add_file(
        &mut self,
        alloc: Global,
        plan: TestPlan<'_>,
        bytes: &[u8],
    ) -> Result<(), ServeFault> {
        let Ok(sessions) = read_sessions(alloc, bytes) else {
            return Ok(());
        };
        for session in sessions.as_slice() {
            if is_chosen(plan.only, session) {
                self.add(alloc, plan, session)?;
            }
        }
        Ok(())
    }

    /// How many of the rules gave a decision, and what is told of the others.
    pub(crate) fn share(&self, alloc: Global) -> Result<Share, AllocError> {
        let all = rules_in(alloc, self.commands.as_slice())?;
        let rules = distinct(alloc, all.as_slice())?;
        let missing = unseen(alloc, &self.seen, rules.as_slice())?;
        Ok(Share {
            rules: rules.len(),
            seen: rules.len().saturating_sub(missing.len()),
            text: told_text(alloc, false, rules.len(), missing.as_slice())?,
        })
    }
}
