//! The command of a line, whether it only asks, and the words of all commands.

ghost use Rattle.std.specs.Prelude.{◌≡◌, ◌<◌, IfOk, List, bytes_eq, is_some, map, ℕ};
ghost use Rattle.std.specs.List.{list_any};
ghost use Rattle.ent_command.specs.Asked.{command_in, form_of};
ghost use Rattle.ent_command.specs.Asking.{is_asking, only_asks};
ghost use Rattle.ent_command.specs.CommandView.{command_view, session_view};

use crate::command::{Command, QuestionCommand, WORDS, command_of};
use crate::keys::number_at;
use ent_json::{JsonTree, read_json, text_at};
use ent_wire::Refusal;
use json::Scratch;
use std::alloc::{AllocError, Global};

/// How many sessions there are.
const SESSIONS: u64 = 16;

/// The session of a line and what it asks for, or its refusal: its shape is wrong, no command has the name, or the
/// session isn't one of the sixteen, the first of them that stands. The absent session is 0.
///
/// Its contract is an equation.
#[tactic(auto, unfolding(crate::specs::Asked::command_in))]
pub fn command_in<J: JsonTree>(object: &J) -> Result<(u8, Command<'_, J>), Refusal>
    ensures asked { session_view J.content result ≡ command_in (J.content object.now) }
    ensures session { IfOk result (λ x. x.0 < 16) }
{
    let word = text_at(object, "do").ok_or(Refusal::Shape)?;
    let session = number_at(object, "session", 0).ok_or(Refusal::Shape)?;
    let command = command_of(word, object)?;
    let Some(session) = session else {
        return Err(Refusal::UnknownSession);
    };
    if session < SESSIONS {
        Ok((session as u8, command))
    } else {
        Err(Refusal::UnknownSession)
    }
}

/// Whether a command only asks: it is a question, and another one than how many evaluations there were.
fn is_asking<J: JsonTree>(command: &Command<'_, J>) -> bool
    ensures { result ≡ is_asking (command_view J.content command.now) }
{
    match command {
        Command::Question(QuestionCommand::Work) => false,
        Command::Question(_) => true,
        _ => false,
    }
}

/// Whether a line only asks, or asks for no command. Such a line leaves everything, and its reply doesn't rest on how
/// many evaluations there were ([`questions_leave_all`](crate::questions_leave_all)).
///
/// # Errors
///
/// `AllocError` if memory runs out.
///
/// Its contract is an equation but for memory.
pub fn only_asks(alloc: Global, line: &[u8]) -> Result<bool, AllocError>
    ensures { IfOk result (λ asks. asks ≡ only_asks line.now) }
{
    let mut scratch = Scratch::new(alloc);
    let Some(value) = read_json(alloc, line, &mut scratch)? else {
        return Ok(true);
    };
    match command_in(&value) {
        Ok((_, command)) => Ok(is_asking(&command)),
        Err(_) => Ok(true),
    }
}

/// The words that may stand at `do`: a word is one of them where a command has it.
///
/// # Errors
///
/// `AllocError` if memory runs out.
///
/// Its contract is an equation but for memory.
pub fn command_words(alloc: Global) -> Result<Vec<&'static str>, AllocError>
    ensures { IfOk result (λ all. (word : List ℕ)
        → list_any (bytes_eq word) (map (λ w. w.now) all.items) ≡ is_some (form_of word)) }
{
    Vec::from_slice(alloc, WORDS)
}
