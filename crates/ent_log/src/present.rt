//! The present table, as the log reads it.

ghost use Rattle.std.specs.Prelude.{◌≡◌, Option, option_copied};

use ent_values::Shared;

/// A table that can answer under a condition: for each key an answer, or none.
pub trait Present<K, A> {
    ghost can_answer: { Self → Type 0 };

    ghost answers: { Self → K → Option A };

    /// The answer to a key, if there is one. It takes no memory.
    fn answer(&self, key: &K) -> Option<&Shared<A>>
        requires { can_answer self.now }
        ensures { option_copied result ≡ answers self.now key.now };
}
