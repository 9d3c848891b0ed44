//! What a line asks for: the commands, and the table of their words.

ghost use Rattle.std.specs.Prelude.{◌≡◌, [], ◌∷◌, Some, codes, map, option_map};
ghost use Rattle.ent_command.specs.Asked as asked;
ghost use Rattle.ent_command.specs.Asked.{command_of, form_of};
ghost use Rattle.ent_command.specs.CommandView.{asked_view, asks_in, change_view, question_view};

use crate::changes::{
    add_name, add_policy, drop_name, replace_policy, set_attribute, set_day, set_moment, set_root,
    withdraw_policy,
};
use crate::keys::AskedRow;
use crate::questions::{
    ask, attributes, by_rule, can, cell, cells, changes, documents, dump, explain, format, names,
    who,
};
use crate::wanted::WantedCells;
use ent_json::JsonTree;
use ent_policy::Kind;
use ent_table::List;
use ent_wire::Refusal;

/// What a line asks for. Its texts and values stay where they are in the line's JSON.
#[derive(Drop)]
pub enum Command<'a, J> {
    /// A change of what is held.
    Change(EditCommand<'a, J>),
    /// A question about it.
    Question(QuestionCommand<'a, J>),
    /// Marks the present table.
    Mark,
}

/// What makes an edit, if what it says can be read. The number of a module is none where it is negative.
#[derive(Drop)]
pub enum EditCommand<'a, J> {
    /// Puts a name last in a list.
    AddName(List, &'a str),
    /// Takes a name out of a list.
    DropName(List, &'a str),
    /// Stores a document in the module of that number.
    AddPolicy(Option<u64>, &'a J),
    /// Puts a document in the place of the one with its kind, id and version, in the module of that number.
    ReplacePolicy(Option<u64>, &'a J),
    /// Takes the document of a kind, an id and a version out of the module of that number.
    WithdrawPolicy(Option<u64>, Kind, &'a str, &'a str),
    /// Gives a row its values, in the module of that number.
    SetAttribute(Option<u64>, AskedRow<'a, J>),
    /// Sets the root to what a reference names.
    SetRoot(&'a J),
    /// Sets the day to what a text writes, or to none.
    SetDay(Option<&'a str>),
    /// Sets the moment to what a text writes, or to none.
    SetMoment(Option<&'a str>),
}

/// What is asked about what is held, and leaves it.
#[derive(Drop)]
pub enum QuestionCommand<'a, J> {
    /// All cells.
    Table,
    /// The cell of a person, an action and a resource.
    Cell(&'a str, &'a str, &'a str),
    /// The answer to a request.
    Ask(&'a J),
    /// How many cells have each decision.
    Counts,
    /// What a person can do.
    Can(&'a str),
    /// Who can do an action to a resource.
    Who(&'a str, &'a str),
    /// Which cells a rule of a policy decides, or without a rule the default of a policy or a set.
    ByRule(&'a str, Option<&'a str>),
    /// What changed since the mark.
    Notices,
    /// What changed since a serial. A negative number is none.
    Changes(Option<u64>),
    /// How many times a request was evaluated.
    Work,
    /// Whether the lines behind it may have that version. A negative number is none.
    Format(Option<u64>),
    /// The lines of that version that make the state anew.
    Dump(Option<u64>),
    /// What stands, in numbers.
    State,
    /// The cells of some person, action, resource and decisions.
    Cells(WantedCells<'a, J>),
    /// The values that are held of an entity of a category, which may be none.
    Attributes(Option<&'a str>, &'a str),
    /// The documents that are held, or those of an id.
    Documents(Option<&'a str>),
    /// The cell of a person, an action and a resource, its causes, and what its answer rests on: with what the
    /// documents say that are found, or without.
    ExplainCell(bool, &'a str, &'a str, &'a str),
    /// The answer to a request, its causes, and what it rests on.
    Explain(bool, &'a J),
    /// The cells of which a part failed.
    Faults,
    /// How large everything may grow.
    Limits,
    /// The names of a list from a place on, and at most so many. A negative number is none.
    Names(List, Option<u64>, Option<u64>),
}

/// The word of each command, in the order of the table.
pub(crate) const WORDS: &[&str] = &[
    "person.add",
    "action.add",
    "resource.add",
    "person.drop",
    "action.drop",
    "resource.drop",
    "policy.add",
    "policy.replace",
    "policy.withdraw",
    "attr.set",
    "root.set",
    "day.set",
    "moment.set",
    "table",
    "cell",
    "ask",
    "counts",
    "can",
    "who",
    "by_rule",
    "notices",
    "changes",
    "work",
    "format",
    "dump",
    "state",
    "cells",
    "attributes",
    "documents",
    "explain",
    "faults",
    "limits",
    "names",
    "mark",
];

/// The keys of a command that names what it lists or drops.
const NAMING: &[&str] = &["do", "session", "name"];

/// The keys of a command that stores a document.
const STORING: &[&str] = &["do", "session", "document", "module"];

/// A change that was read of an object, unless it has another key than these.
fn makes<'a, J: JsonTree>(
    object: &'a J,
    keys: &[&str],
    read: Option<EditCommand<'a, J>>,
) -> Result<Command<'a, J>, Refusal>
    ensures { asked_view J.content result ≡ asks_in (map (λ k. k.now) keys.now)
        (option_map asked.change (option_map (change_view J.content) read.entry)) (J.content object.now) }
{
    if !object.has_only(keys) {
        return Err(Refusal::Shape);
    }
    match read {
        Some(change) => Ok(Command::Change(change)),
        None => Err(Refusal::Shape),
    }
}

/// A question that was read of an object, unless it has another key than these.
fn asks<'a, J: JsonTree>(
    object: &'a J,
    keys: &[&str],
    read: Option<QuestionCommand<'a, J>>,
) -> Result<Command<'a, J>, Refusal>
    ensures { asked_view J.content result ≡ asks_in (map (λ k. k.now) keys.now)
        (option_map asked.question (option_map (question_view J.content) read.entry)) (J.content object.now) }
{
    if !object.has_only(keys) {
        return Err(Refusal::Shape);
    }
    match read {
        Some(question) => Ok(Command::Question(question)),
        None => Err(Refusal::Shape),
    }
}

/// A mark, unless an object has a key of a command.
fn marks<J: JsonTree>(object: &J) -> Result<Command<'_, J>, Refusal>
    ensures { asked_view J.content result
        ≡ asks_in (codes "do" ∷ codes "session" ∷ []) (Some asked.mark) (J.content object.now) }
{
    if object.has_only(&["do", "session"]) {
        Ok(Command::Mark)
    } else {
        Err(Refusal::Shape)
    }
}

/// The command that an object asks for under a word, or why there is none: of each command its word, its keys and what
/// reads it.
#[tactic(auto, unfolding(crate::specs::Asked::form_of))]
pub(crate) fn command_of<'a, J: JsonTree>(
    word: &str,
    object: &'a J,
) -> Result<Command<'a, J>, Refusal>
    ensures { asked_view J.content result ≡ command_of (form_of word.now) (J.content object.now) }
{
    match word {
        "person.add" => makes(object, NAMING, add_name(List::People, object)),
        "action.add" => makes(object, NAMING, add_name(List::Actions, object)),
        "resource.add" => makes(object, NAMING, add_name(List::Resources, object)),
        "person.drop" => makes(object, NAMING, drop_name(List::People, object)),
        "action.drop" => makes(object, NAMING, drop_name(List::Actions, object)),
        "resource.drop" => makes(object, NAMING, drop_name(List::Resources, object)),
        "policy.add" => makes(object, STORING, add_policy(object)),
        "policy.replace" => makes(object, STORING, replace_policy(object)),
        "policy.withdraw" => makes(
            object,
            &["do", "session", "id", "kind", "module", "version"],
            withdraw_policy(object),
        ),
        "attr.set" => makes(
            object,
            &[
                "do",
                "session",
                "attribute",
                "category",
                "entity",
                "issuer",
                "module",
                "type",
                "values",
            ],
            set_attribute(object),
        ),
        "root.set" => makes(object, &["do", "session", "reference"], set_root(object)),
        "day.set" => makes(object, &["do", "session", "day"], set_day(object)),
        "moment.set" => makes(object, &["do", "session", "moment"], set_moment(object)),
        "table" => asks(object, &["do", "session"], Some(QuestionCommand::Table)),
        "cell" => asks(
            object,
            &["do", "session", "action", "person", "resource"],
            cell(object),
        ),
        "ask" => asks(object, &["do", "session", "request"], ask(object)),
        "counts" => asks(object, &["do", "session"], Some(QuestionCommand::Counts)),
        "can" => asks(object, &["do", "session", "person"], can(object)),
        "who" => asks(
            object,
            &["do", "session", "action", "resource"],
            who(object),
        ),
        "by_rule" => asks(
            object,
            &["do", "session", "policy", "rule"],
            by_rule(object),
        ),
        "notices" => asks(object, &["do", "session"], Some(QuestionCommand::Notices)),
        "changes" => asks(object, &["do", "session", "since"], changes(object)),
        "work" => asks(object, &["do", "session"], Some(QuestionCommand::Work)),
        "format" => asks(object, &["do", "session", "version"], format(object)),
        "dump" => asks(object, &["do", "session", "version"], dump(object)),
        "state" => asks(object, &["do", "session"], Some(QuestionCommand::State)),
        "cells" => asks(
            object,
            &["do", "session", "action", "decisions", "person", "resource"],
            cells(object),
        ),
        "attributes" => asks(
            object,
            &["do", "session", "category", "entity"],
            attributes(object),
        ),
        "documents" => asks(object, &["do", "session", "id"], documents(object)),
        "explain" => asks(
            object,
            &[
                "do",
                "session",
                "action",
                "documents",
                "person",
                "request",
                "resource",
            ],
            explain(object),
        ),
        "faults" => asks(object, &["do", "session"], Some(QuestionCommand::Faults)),
        "limits" => asks(object, &["do", "session"], Some(QuestionCommand::Limits)),
        "names" => asks(
            object,
            &["do", "session", "count", "from", "list"],
            names(object),
        ),
        "mark" => marks(object),
        _ => Err(Refusal::UnknownCommand),
    }
}
