//! The questions that have a number.

ghost use Rattle.std.specs.Prelude.{◌≡◌, ◌↔◌, [], IfOk, IsTrue, OnErr, OnOk, Some, is_some, length};
ghost use Rattle.std.specs.Prelude.{option_copied, slice_get};
ghost use Rattle.std.specs.List.{IsDistinct};
ghost use Rattle.ent_request.specs.Questions as questions;
ghost use Rattle.ent_request.specs.Questions.{is_asked, same_question, with_question};

use crate::question::Question;
use indexmap::IndexSet;
use std::alloc::{AllocError, Global};
use std::marker::Model;

/// So many questions have a number at most before one more gets one.
const MOST_BEFORE: usize = 4_294_967_295;

/// The questions that have a number, each once, in the order of their numbers. One that has a number keeps it.
#[derive(Drop)]
pub struct Questions {
    questions: IndexSet<Question>,
}

impl Model for Questions {
    ghost use Rattle.std.specs.Prelude.{List};
    ghost use Rattle.std.specs.Coded.{coded_list};
    ghost use Rattle.ent_request.specs.contracts.question.Question as question;
    ghost use Rattle.ent_request.specs.declared.question.Question.{Question};
    ghost use Rattle.ent_request.specs.proofs_only.Numbering.{AreNumbered};

    ghost Value = { List Question };

    ghost coded = { coded_list question.the_row.coded };

    ghost view = { λ q. q.questions.keys };

    ghost invariant = { λ q. AreNumbered q.questions.keys };
}

impl Questions {
    /// No questions, for which nothing is allocated.
    ///
    /// Its contract is an equation.
    pub fn new(alloc: Global) -> Questions
        ensures { result ≡ [] }
    {
        Questions {
            questions: IndexSet::new(alloc),
        }
    }

    /// How many there are.
    ///
    /// Its contract is an equation.
    pub fn len(&self) -> usize
        ensures { result ≡ length self.now }
    {
        self.questions.len()
    }

    /// Whether there are none.
    ///
    /// Its contract is an equation.
    pub(crate) fn is_empty(&self) -> bool
        ensures { IsTrue result ↔ (self.now ≡ []) }
    {
        self.questions.as_slice().is_empty()
    }

    /// The questions, in the order of their numbers.
    ///
    /// Its contract is an equation.
    pub fn as_slice(&self) -> &[Question]
        ensures { result.now ≡ self.now }
    {
        self.questions.as_slice()
    }

    /// The question of a number, if it is one's.
    ///
    /// Its contract is an equation.
    pub fn get(&self, number: u32) -> Option<&Question>
        ensures { option_copied result ≡ slice_get self.now number }
    {
        self.questions.get_index(number as usize)
    }

    /// The number of a question, if it has one.
    ///
    /// Its contract is an equation.
    pub fn number_of(&self, question: &Question) -> Option<u32>
        ensures number { result ≡ questions.number_of self.now question.now }
        ensures found { is_some result ≡ is_asked self.now question.now }
        ensures distinct { IsDistinct same_question self.now }
    {
        let number = self.questions.get_index_of(question)?;
        Some(number as u32)
    }

    // Whether a question has this number.
    fn is_of(&self, number: u32, question: &Question) -> bool
        ensures { IsTrue result → slice_get self.now number ≡ Some question.now }
    {
        match self.questions.get_index(number as usize) {
            Some(there) => same_question(there, question),
            None => false,
        }
    }

    /// The number of a question, which is likely this one. It gets one, if it has none. After a refusal all is as
    /// before.
    ///
    /// Its contract leaves open: nothing, as long as no question stands there twice: the number is said by what stands
    /// at it.
    pub fn note(
        &mut self,
        alloc: Global,
        question: &Question,
        likely: u32,
    ) -> Result<u32, AllocError>
        ensures number { IfOk result (λ n. slice_get self.new n ≡ Some question.now) }
        ensures ok { OnOk result (self.new ≡ with_question self.old question.now) }
        ensures err { OnErr result (self.new ≡ self.old) }
    {
        if self.is_of(likely, question) {
            return Ok(likely);
        }
        if let Some(number) = self.number_of(question) {
            return Ok(number);
        }
        if self.questions.len() > MOST_BEFORE {
            return Err(AllocError);
        }
        let (number, _) = self.questions.insert_full(question.copy(alloc)?)?;
        Ok(number as u32)
    }
}

// Whether two questions are equal.
#[tactic(auto, using(crate::proofs::Numbered::equal_questions))]
fn same_question(first: &Question, second: &Question) -> bool
    ensures { IsTrue result → first.now ≡ second.now }
{
    first == second
}
