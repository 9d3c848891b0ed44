//! What an edit changes of what is held: exchanging it again takes the edit back.

ghost use Rattle.std.specs.Prelude.{◌≡◌, OnErr, OnOk};
ghost use Rattle.ent_table.specs.proofs_only.Change.{Becomes, Stays};
ghost use Rattle.ent_table.specs.proofs_only.Exchange.{CountsSame, IsMade, IsThere, IsWithin, OnlyHeld};
ghost use Rattle.ent_table.specs.proofs_only.Exchange.{taken, with_exchange};
ghost use Rattle.ent_table.specs.Fresh.{state_of};

use crate::review_parts::ReviewParts;
use ent_eval::{Evaluates, Exchange};
use std::alloc::AllocError;

impl<E: Evaluates> ReviewParts<E> {
    /// Exchanges one thing of what is held. Once this is done, it can be done again without memory, and then all is as
    /// before. It evaluates nothing.
    pub(crate) fn exchange(&mut self, exchange: &mut Exchange) -> Result<(), AllocError>
        requires { IsWithin (state_of self.old) exchange.old }
        ensures made { OnOk result (Becomes (λ s. with_exchange s exchange.old) self.old self.new) }
        ensures taken { OnOk result (exchange.new ≡ taken (state_of self.old) exchange.old) }
        ensures again { OnOk result (IsWithin (state_of self.new) exchange.new) }
        ensures there { OnOk result (IsThere self.new exchange.new) }
        ensures absent { OnErr result (¬ IsThere self.old exchange.old) }
        ensures kept { OnErr result (Stays self.old self.new) }
        ensures rest { OnlyHeld self.old self.new }
        ensures counted { CountsSame self.old self.new }
    {
        self.table.cells.exchange(exchange)
    }

    /// Takes an exchange back that was made: the state is the one before it. It takes no memory.
    #[tactic(auto, using(crate::proofs::Undone::made_back))]
    pub(crate) fn take_back(&mut self, exchange: &mut Exchange)
        requires within { IsWithin (state_of self.old) exchange.old }
        requires there { IsThere self.old exchange.old }
        ensures before { (before : _) → IsMade before self.old exchange.old
            → Stays before self.new }
        ensures rest { OnlyHeld self.old self.new }
        ensures counted { CountsSame self.old self.new }
    {
        match self.exchange(exchange) {
            Ok(()) => {}
            Err(_) => unreachable!(),
        }
    }
}
