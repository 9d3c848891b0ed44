//! The service: a desk that answers lines.

ghost use Rattle.std.specs.Prelude.{◌≡◌, ◌<◌, OnOk, Ok, vec_len};
ghost use Rattle.std.specs.Result.{result_ok};
ghost use Rattle.ent_table.specs.Names.{triple_of};
ghost use Rattle.ent_command.specs.Asked as asked;
ghost use Rattle.ent_command.specs.Asked.{command_in};
ghost use Rattle.ent_command.specs.CommandView.{change_view, command_view, question_view};
ghost use Rattle.ent_line.specs.proofs_only.Replying.{Answers, Keeps, RemembersBy, Replies, Tells, Works, WorksFor};
ghost use Rattle.ent_command.specs.Asking.{asked_by};
ghost use Rattle.ent_line.specs.Commands.{cell_told, edited, heard, made, request_answered, requested, run};
ghost use Rattle.ent_line.specs.Commands.{table_told, told};
ghost use Rattle.ent_command.specs.Edits.{edit_of, unread};
ghost use Rattle.ent_line.specs.Step.{data_of};
ghost use Rattle.ent_line.specs.Work.{asked_work, command_work, edit_work};
ghost use Rattle.ent_line.specs.World.{beside_of, counted_of};

use crate::answering::Answering;
use crate::cell::{one_cell_text, response_text, table_text};
use crate::refusing::refused_edit;
use crate::reply::Reply;
use ent_command::{Command, EditCommand, NoEdit, QuestionCommand, command_in, read_edit};
use ent_eval::Evaluates;
use ent_json::{JsonTree, read_json};
use ent_profile::{RequestFault, read_request};
use ent_report::Desk;
use ent_table::{Edit, EditFault, LAST_SERIAL};
use ent_wire::{LINE_LIMIT, Refusal};
use json::Scratch;
use std::alloc::{AllocError, Global};
use std::marker::Model;
use std::mem;

/// A desk whose edits, reports and marks are asked for by lines of JSON.
///
/// A line is a JSON object with `do`, the name of a command, with the command's own keys, and with an optional
/// `session`, a whole number from 0 to 15. A command is a change, a question or a mark: a change makes an edit, a
/// question changes nothing but the count of evaluations, and a mark keeps the present table for its session. A refused
/// line changes nothing, but where memory is wanting its evaluations may be counted.
#[derive(Drop)]
pub struct Service<E: Evaluates> {
    pub(crate) alloc: Global,
    pub(crate) desk: Desk<E>,
    scratch: Vec<Scratch>,
}

impl<E: Evaluates> Model for Service<E> {
    ghost use Rattle.ent_report.specs.Desk.{Desked};
    ghost use Rattle.ent_report.specs.proofs_only.Codes.{desked_code};

    ghost Value = { Desked };

    ghost coded = { desked_code };

    ghost view = { λ s. s.desk };
}

/// Puts a scratch into a list that has none.
fn fill(alloc: Global, scratch: &mut Vec<Scratch>) -> Result<(), AllocError>
    ensures { OnOk result (0 < vec_len scratch.new) }
{
    if !scratch.is_empty() {
        return Ok(());
    }
    scratch.push(Scratch::new(alloc))?;
    Ok(())
}

impl<E: Evaluates> Service<E> {
    /// A service over a desk as it stands.
    ///
    /// Its contract is an equation.
    pub fn new(alloc: Global, desk: Desk<E>) -> Service<E>
        ensures { result ≡ desk }
    {
        Service {
            alloc,
            desk,
            scratch: Vec::new(alloc),
        }
    }

    /// Makes an edit.
    #[tactic(auto, using(crate::proofs::KeptLemmas::edit_remembers))]
    pub(crate) fn edit(&mut self, edit: Edit) -> Result<Reply, AllocError>
        ensures reply { Replies (λ w. edited w edit) self.old self.new result }
        ensures work { Works (λ s. edit_work s (Ok edit)) self.old self.new result }
        ensures remembered { RemembersBy self.old self.new result }
    {
        match self.desk.edit(edit) {
            Ok(accepted) => Ok(Reply::Accepted(accepted)),
            Err(fault) => refused_edit(fault),
        }
    }

    /// The refusal of what can't be read, of which the last serial is told first.
    fn unread(&self, fault: EditFault) -> EditFault
        ensures { result ≡ unread self.now.world.state fault }
    {
        if self.desk.review().serial() >= LAST_SERIAL {
            EditFault::Limit
        } else {
            fault
        }
    }

    /// Makes the edit of a change.
    #[tactic(auto, using(crate::proofs::KeptLemmas::edit_remembers))]
    fn change<J: JsonTree>(&mut self, change: EditCommand<'_, J>) -> Result<Reply, AllocError>
        ensures reply { Replies (λ w. made w (edit_of (change_view J.content change.entry)))
            self.old self.new result }
        ensures work { Works (λ s. edit_work s (edit_of (change_view J.content change.entry)))
            self.old self.new result }
        ensures remembered { RemembersBy self.old self.new result }
    {
        match read_edit(self.alloc, change) {
            Ok(edit) => self.edit(edit),
            Err(NoEdit::Faulty(fault)) => Ok(Reply::Refused(Refusal::Document(fault))),
            Err(NoEdit::Unreadable(fault)) => refused_edit(self.unread(fault)),
            Err(NoEdit::Memory) => Err(AllocError),
        }
    }

    /// `table`.
    #[tactic(auto, unfolding(crate::specs::Commands::table_told))]
    fn table(&self) -> Result<Reply, AllocError>
        ensures { Tells (λ w. table_told w.state) self.now result }
    {
        let text = table_text(self.alloc, self.desk.review().cells())?;
        Ok(Reply::Text(text))
    }

    /// `cell`.
    #[tactic(auto, unfolding(crate::specs::Commands::cell_told))]
    fn cell(&self, person: &str, action: &str, resource: &str) -> Result<Reply, AllocError>
        ensures { Tells (λ w. cell_told w.state (triple_of person.now action.now resource.now))
            self.now result }
    {
        match self.desk.review().cell(person, action, resource) {
            None => Ok(Reply::Refused(Refusal::NotThere)),
            Some(answer) => {
                let text = one_cell_text(self.alloc, person, action, resource, answer)?;
                Ok(Reply::Text(text))
            }
        }
    }

    /// `ask`.
    #[tactic(auto, using(crate::proofs::KeptLemmas::ask_keeps), unfolding(crate::specs::Commands::request_answered))]
    fn ask<J: JsonTree>(&mut self, json: &J) -> Result<Reply, AllocError>
        ensures reply { Answers (λ w. request_answered w.state (J.content json.now))
            self.old self.new result }
        ensures work { WorksFor (asked.ask (J.content json.now)) self.old self.new result }
        ensures kept { Keeps self.old self.new }
    {
        match read_request(self.alloc, json) {
            Ok(request) => {
                let answer = self.desk.ask_shared(&request)?;
                let text = response_text(self.alloc, answer.get(), &request)?;
                Ok(Reply::Text(text))
            }
            Err(RequestFault::Bad) => Ok(Reply::Refused(Refusal::Request)),
            Err(RequestFault::Memory) => Err(AllocError),
        }
    }

    /// Answers a question of a session.
    #[tactic(auto, unfolding(crate::specs::Commands::told))]
    fn question<J: JsonTree>(
        &mut self,
        session: u8,
        question: QuestionCommand<'_, J>,
    ) -> Result<Reply, AllocError>
        requires { session < 16 }
        ensures reply { Answers
            (λ w. told (beside_of self.old) w session (question_view J.content question.entry))
            self.old self.new result }
        ensures work { WorksFor (question_view J.content question.entry) self.old self.new result }
        ensures kept { Keeps self.old self.new }
    {
        match question {
            QuestionCommand::Table => self.table(),
            QuestionCommand::Cell(person, action, resource) => self.cell(person, action, resource),
            QuestionCommand::Ask(request) => self.ask(request),
            QuestionCommand::Counts => self.counts(),
            QuestionCommand::Can(person) => self.can(person),
            QuestionCommand::Who(action, resource) => self.who(action, resource),
            QuestionCommand::ByRule(policy, rule) => self.by_rule(policy, rule),
            QuestionCommand::Notices => self.notices(session),
            QuestionCommand::Changes(since) => self.changes(since),
            QuestionCommand::Work => self.work(),
            QuestionCommand::Format(version) => self.format(version),
            QuestionCommand::Dump(version) => self.dump(version),
            QuestionCommand::State => self.state(),
            QuestionCommand::Cells(wanted) => self.cells(wanted),
            QuestionCommand::Attributes(category, entity) => self.attributes(category, entity),
            QuestionCommand::Documents(id) => self.documents(id),
            QuestionCommand::ExplainCell(whole, person, action, resource) => {
                self.explain_cell(whole, person, action, resource)
            }
            QuestionCommand::Explain(whole, request) => self.explain(whole, request),
            QuestionCommand::Faults => self.faults(),
            QuestionCommand::Limits => self.limits(),
            QuestionCommand::Names(list, from, count) => self.names(list, from, count),
        }
    }

    /// Does what a command of a session asks for.
    #[tactic(auto, unfolding(crate::specs::Commands::run))]
    fn run<J: JsonTree>(
        &mut self,
        session: u8,
        command: Command<'_, J>,
    ) -> Result<Reply, AllocError>
        requires { session < 16 }
        ensures reply { Replies
            (λ w. run (beside_of self.old) w session (command_view J.content command.entry))
            self.old self.new result }
        ensures work { Works (λ s. command_work s (command_view J.content command.entry))
            self.old self.new result }
        ensures remembered { RemembersBy self.old self.new result }
    {
        match command {
            Command::Change(change) => self.change(change),
            Command::Question(question) => self.question(session, question),
            Command::Mark => self.mark(session),
        }
    }

    /// Does what a JSON value asks for.
    fn answer<J: JsonTree>(&mut self, value: &J) -> Result<Reply, AllocError>
        ensures reply { Replies
            (λ w. requested (beside_of self.old) w (command_in (J.content value.now)))
            self.old self.new result }
        ensures work { Works (λ s. asked_work s (result_ok (command_in (J.content value.now))))
            self.old self.new result }
        ensures remembered { RemembersBy self.old self.new result }
    {
        match command_in(value) {
            Ok((session, command)) => self.run(session, command),
            Err(refusal) => Ok(Reply::Refused(refusal)),
        }
    }

    /// Does what a line asks for whose JSON is read over that scratch.
    fn respond_over(&mut self, line: &[u8], scratch: &mut Scratch) -> Result<Reply, AllocError>
        ensures reply { Replies
            (λ w. heard (beside_of self.old) w (data_of line.now)) self.old self.new result }
        ensures work { Works (λ s. asked_work s (asked_by line.now)) self.old self.new result }
        ensures remembered { RemembersBy self.old self.new result }
    {
        match read_json(self.alloc, line, scratch)? {
            Some(value) => self.answer(&value),
            None => Ok(Reply::Refused(Refusal::NotJson)),
        }
    }

    /// Does what a line asks for that isn't too long. One scratch is kept from line to line, since a new one costs
    /// as much as a short line.
    fn respond(&mut self, line: &[u8]) -> Result<Reply, AllocError>
        ensures reply { Replies
            (λ w. heard (beside_of self.old) w (data_of line.now)) self.old self.new result }
        ensures work { Works (λ s. asked_work s (asked_by line.now)) self.old self.new result }
        ensures remembered { RemembersBy self.old self.new result }
    {
        let mut scratch = mem::replace(&mut self.scratch, Vec::new(self.alloc));
        fill(self.alloc, &mut scratch)?;
        let reply = self.respond_over(line, &mut scratch[0]);
        self.scratch = scratch;
        reply
    }
}

impl<E: Evaluates> Answering for Service<E> {
    ghost use Rattle.ent_line.specs.Answering.{reply_view};
    ghost use Rattle.ent_line.specs.Kept.{Remembers};
    ghost use Rattle.ent_line.specs.Step.{Counted, Counts};
    ghost use Rattle.ent_line.specs.World.{counted_of};
    ghost use Rattle.ent_line.specs.proofs_only.LongLines.{long_lines_alike};

    ghost World = { Counted };

    ghost world = { counted_of };

    ghost answers = { Counts };

    ghost is_ready = { λ _. Unit {0} };

    ghost long_lines_alike = { long_lines_alike };

    /// Answers a line by one step of the service after the evaluations that it made so far, or by refusal 15 where
    /// memory is wanting, after which everything is as before but that count.
    ///
    /// The count of evaluations rises by the cells that an accepted edit touches, and by one for an answered request;
    /// where they are refused for want of memory, by no more than that; and by no other line.
    ///
    /// An accepted edit and a mark forget the tables from before the oldest mark, every other line forgets none.
    #[tactic(auto, unfolding(crate::specs::Commands::respond))]
    fn handle(&mut self, line: &[u8]) -> Reply
        ensures answer { Counts (counted_of self.old) line.now (reply_view result)
            (counted_of self.new) }
        ensures remembered { Remembers self.old self.new (reply_view result) }
    {
        // The count is a number of the type, so what is raised by nothing stays.
        let _before = self.desk.review().evaluations();
        if line.len() > LINE_LIMIT {
            return Reply::Refused(Refusal::TooLong);
        }
        match self.respond(line) {
            Ok(reply) => reply,
            Err(_) => Reply::Refused(Refusal::Memory),
        }
    }
}
