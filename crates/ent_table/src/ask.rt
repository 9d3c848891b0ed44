//! Requests that are asked beside the table.

ghost use Rattle.std.specs.Prelude.{◌≡◌, IfOk};
ghost use Rattle.ent_cells.specs.Count.{raised};
ghost use Rattle.ent_table.specs.Ask.{answer_in};

use crate::review::Review;
use ent_eval::{Answer, Evaluates, Request};
use ent_values::Shared;
use std::alloc::AllocError;

impl<E: Evaluates> Review<E> {
    /// The answer to any request, listed or not, by what is held alone (section 7): the table has no part in it. Where
    /// it has three ids and nothing else, what is remembered of such requests may serve it.
    ///
    /// Each call counts as one evaluation, also one that is refused for want of memory. It changes nothing but the
    /// count, which stays at its greatest value.
    ///
    /// # Errors
    ///
    /// `AllocError` if memory runs out.
    ///
    /// Its contract is an equation but for memory.
    pub fn ask(&mut self, request: &Request) -> Result<Answer, AllocError>
        ensures answer { IfOk result (λ a. a ≡ answer_in self.old.state request.now) }
        ensures rest { self.new ≡ record self.old { evaluations = raised self.old.evaluations 1 } }
    {
        let alloc = self.parts.alloc;
        let answer = self.ask_shared(request)?;
        answer.get().copy(alloc)
    }

    /// The same, as one of its owners: who only reads the answer makes no copy of it.
    ///
    /// # Errors
    ///
    /// `AllocError` if memory runs out.
    ///
    /// Its contract is an equation but for memory.
    pub fn ask_shared(&mut self, request: &Request) -> Result<Shared<Answer>, AllocError>
        ensures answer { IfOk result (λ a. a ≡ answer_in self.old.state request.now) }
        ensures rest { self.new ≡ record self.old { evaluations = raised self.old.evaluations 1 } }
    {
        self.parts.table.cells.answer_to(request)
    }
}
