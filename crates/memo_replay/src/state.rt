//! How far outcomes were read, and what was heard of them.

ghost use Rattle.std.specs.Prelude.{◌≡◌, [], ◌∷◌, List, OnOk, Some, slice_get};
ghost use Rattle.std.specs.List.{IsDistinct};
ghost use Rattle.ent_request.specs.Note.{asks};
ghost use Rattle.ent_request.specs.Questions.{AreNumbers, same_question};
ghost use Rattle.ent_request.specs.declared.question.Question.{Question};
ghost use Rattle.memo_plan.specs.Heard.{gist_of};
ghost use Rattle.memo_replay.specs.proofs_only.Heard.{HearsMore, StaysThere, failing, gist_by};

use ent_trace::{MarkedNumbers, Notes};
use memo_tests::TestOutcome;
use std::alloc::{AllocError, Global};
use std::marker::Model;

/// What serves one answer after another. What is joined never depends on it, so that it has no meaning of its own.
#[derive(Drop)]
pub struct Pad {
    pub(crate) asked: MarkedNumbers,
    pub(crate) notes: Notes,
    pub(crate) likely: Vec<u32>,
}

impl Model for Pad {
    ghost Value = { Unit {0} };

    ghost view = { λ _. tt };
}

impl Pad {
    /// Nothing is kept, and nothing is allocated.
    ///
    /// Its contract leaves open: all of it: a pad holds nothing that a call tells.
    pub fn new(alloc: Global) -> Pad {
        Pad {
            asked: MarkedNumbers::new(alloc),
            notes: Notes::unasked(alloc),
            likely: Vec::new(alloc),
        }
    }
}

/// Where the next outcome stands: at a place of entries, with its number at a place of a way. What was heard so far:
/// the numbers of questions, each once, and whether something failed. Beside them, for each place, the number that
/// the question of its reference likely has.
#[derive(Drop)]
pub(crate) struct JoinState {
    pub(crate) place: usize,
    pub(crate) at: usize,
    pub(crate) asked: MarkedNumbers,
    pub(crate) failed: bool,
    pub(crate) notes: Notes,
    pub(crate) likely: Vec<u32>,
}

impl JoinState {
    // Hears of an outcome.
    pub(crate) fn hear(&mut self, outcome: &TestOutcome) -> Result<(), AllocError>
        ensures heard { OnOk result ((questions : List Question) → IsDistinct same_question questions
            → AreNumbers questions outcome.now.asked
            → HearsMore questions (gist_by questions outcome.now) self.old self.new) }
        ensures stays { StaysThere self.old self.new }
    {
        for number in outcome.asked.as_slice() {
            self.asked.note(*number as usize)?;
        }
        self.failed = self.failed || outcome.failed;
        Ok(())
    }

    // Hears that a question is asked.
    pub(crate) fn ask(&mut self, number: u32) -> Result<(), AllocError>
        ensures heard { OnOk result ((questions : List Question) (q : Question) → IsDistinct same_question questions
            → slice_get questions number ≡ Some q
            → HearsMore questions (gist_of (asks q ∷ [])) self.old self.new) }
        ensures stays { StaysThere self.old self.new }
    {
        self.asked.note(number as usize)
    }

    // Hears that something fails.
    pub(crate) fn fail(&mut self)
        ensures heard { (questions : List Question) → HearsMore questions failing self.old self.new }
        ensures stays { StaysThere self.old self.new }
    {
        self.failed = true;
    }
}
