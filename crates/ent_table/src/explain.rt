//! What the answers to requests rest on, and why parts of them are Indeterminate.

ghost use Rattle.std.specs.Prelude.{◌≡◌, IfOk};
ghost use Rattle.ent_cells.specs.Count.{raised};
ghost use Rattle.ent_table.specs.Ask.{answer_in};
ghost use Rattle.ent_table.specs.Rests.{causes_in, recorded_in};

use crate::review::Review;
use ent_eval::{Evaluates, Explained, Request};
use std::alloc::AllocError;

impl<E: Evaluates> Review<E> {
    /// The answer to any request, listed or not, with the look-ups that it rests on, each once, and its causes: the
    /// parts that came to Indeterminate by themselves, that of the answer first, the others in the order of evaluation.
    /// The answer is that of [`Review::ask`], and the call counts as that does.
    ///
    /// # Errors
    ///
    /// `AllocError` if memory runs out.
    ///
    /// Its contract is an equation but for memory.
    pub fn explain(&mut self, request: &Request) -> Result<Explained, AllocError>
        ensures answer { IfOk result (λ e. e.answer ≡ answer_in self.old.state request.now) }
        ensures reads { IfOk result (λ e. e.reads ≡ recorded_in self.old.state request.now) }
        ensures causes { IfOk result (λ e. e.causes ≡ causes_in self.old.state request.now) }
        ensures rest { self.new ≡ record self.old { evaluations = raised self.old.evaluations 1 } }
    {
        self.parts.table.cells.explain(request)
    }
}
