//! What the service answers by reports of decisions, and by the marks of sessions.

ghost use Rattle.std.specs.Prelude.{◌≡◌, ◌<◌};
ghost use Rattle.std.specs.Option.{option_copied};
ghost use Rattle.ent_line.specs.proofs_only.Replying.{Answers, Keeps, RemembersBy, Replies, Tells, TellsThat};
ghost use Rattle.ent_line.specs.Commands.{by_rule_told, can_told, changes_told, counts_told, since_told};
ghost use Rattle.ent_line.specs.Commands.{table_marked, who_told, work_told};
ghost use Rattle.ent_report.specs.Known.{known_of};

use crate::reply::Reply;
use crate::reports::{
    by_rule_text, can_text, changes_text, counts_text, notices_text, who_text, work_text,
};
use crate::service::Service;
use ent_eval::Evaluates;
use ent_report::{NoticeFault, ReportFault};
use ent_wire::Refusal;
use std::alloc::AllocError;

impl<E: Evaluates> Service<E> {
    /// `counts`. They are kept until the next edit.
    #[tactic(auto, unfolding(crate::specs::Commands::counts_told))]
    pub(crate) fn counts(&mut self) -> Result<Reply, AllocError>
        ensures reply { Answers (λ w. counts_told w.state) self.old self.new result }
        ensures work { self.new.evaluations ≡ self.old.evaluations }
        ensures kept { Keeps self.old self.new }
    {
        self.desk.keep_counts();
        let text = counts_text(self.alloc, self.desk.counts())?;
        Ok(Reply::Text(text))
    }

    /// `can`.
    #[tactic(auto, unfolding(crate::specs::Commands::can_told))]
    pub(crate) fn can(&self, person: &str) -> Result<Reply, AllocError>
        ensures { Tells (λ w. can_told w.state person.now) self.now result }
    {
        match self.desk.can(person) {
            Ok(found) => {
                let text = can_text(self.alloc, found.as_slice())?;
                Ok(Reply::Text(text))
            }
            Err(ReportFault::NotThere) => Ok(Reply::Refused(Refusal::NotThere)),
            Err(ReportFault::Memory) => Err(AllocError),
        }
    }

    /// `who`.
    #[tactic(auto, unfolding(crate::specs::Commands::who_told))]
    pub(crate) fn who(&self, action: &str, resource: &str) -> Result<Reply, AllocError>
        ensures { Tells (λ w. who_told w.state action.now resource.now) self.now result }
    {
        match self.desk.who(action, resource) {
            Ok(people) => {
                let text = who_text(self.alloc, people.as_slice())?;
                Ok(Reply::Text(text))
            }
            Err(ReportFault::NotThere) => Ok(Reply::Refused(Refusal::NotThere)),
            Err(ReportFault::Memory) => Err(AllocError),
        }
    }

    /// `by_rule`.
    #[tactic(auto, unfolding(crate::specs::Commands::by_rule_told))]
    pub(crate) fn by_rule(&self, policy: &str, rule: Option<&str>) -> Result<Reply, AllocError>
        ensures { Tells (λ w. by_rule_told w.state policy.now (option_copied rule.entry))
            self.now result }
    {
        match self.desk.by_rule(policy, rule) {
            Ok(found) => {
                let text = by_rule_text(self.alloc, found.as_slice())?;
                Ok(Reply::Text(text))
            }
            Err(ReportFault::NotThere) => unreachable!(),
            Err(ReportFault::Memory) => Err(AllocError),
        }
    }

    /// `mark`.
    #[tactic(auto, unfolding(crate::specs::Commands::table_marked))]
    pub(crate) fn mark(&mut self, session: u8) -> Result<Reply, AllocError>
        requires { session < 16 }
        ensures reply { Replies (λ w. table_marked w session) self.old self.new result }
        ensures work { self.new.evaluations ≡ self.old.evaluations }
        ensures remembered { RemembersBy self.old self.new result }
    {
        let serial = self.desk.mark(session)?;
        Ok(Reply::Marked(serial))
    }

    /// `notices`.
    #[tactic(auto, using(crate::proofs::ReportLemmas::noticed, crate::proofs::ReportLemmas::unmarked), unfolding(crate::specs::Commands::changes_told))]
    pub(crate) fn notices(&self, session: u8) -> Result<Reply, AllocError>
        requires { session < 16 }
        ensures { Tells (λ w. changes_told w session) self.now result }
    {
        match self.desk.notices(session) {
            Ok(notices) => {
                let text = notices_text(self.alloc, notices.as_slice())?;
                Ok(Reply::Text(text))
            }
            Err(NoticeFault::NoMark) => Ok(Reply::Refused(Refusal::NoMark)),
            Err(NoticeFault::Memory) => Err(AllocError),
        }
    }

    /// `changes`.
    #[tactic(auto, using(crate::proofs::ReportLemmas::changed, crate::proofs::ReportLemmas::unknown), unfolding(crate::specs::Commands::since_told))]
    pub(crate) fn changes(&self, since: Option<u64>) -> Result<Reply, AllocError>
        ensures { Tells (λ w. since_told (known_of self.now) w.state since)
            self.now result }
    {
        let Some(since) = since else {
            return Ok(Reply::Refused(Refusal::NoMark));
        };
        match self.desk.changes_since(since) {
            Ok(notices) => {
                let serial = self.desk.review().serial();
                let text = changes_text(self.alloc, notices.as_slice(), serial)?;
                Ok(Reply::Text(text))
            }
            Err(NoticeFault::NoMark) => Ok(Reply::Refused(Refusal::NoMark)),
            Err(NoticeFault::Memory) => Err(AllocError),
        }
    }

    /// `work`.
    #[tactic(auto, unfolding(crate::specs::Commands::work_told))]
    pub(crate) fn work(&self) -> Result<Reply, AllocError>
        ensures { TellsThat (work_told self.now.evaluations) result }
    {
        let text = work_text(self.alloc, self.desk.review().evaluations())?;
        Ok(Reply::Text(text))
    }
}
