//! What answers lines.

ghost use Rattle.std.specs.Prelude.{ℕ, List};
ghost use Rattle.ent_line.specs.Answering.{LongLinesAlike, reply_view};
ghost use Rattle.ent_line.specs.Replies.{Answer};
ghost use Rattle.ent_line.specs.Runs.{Handling};

use crate::reply::Reply;

/// A state that answers lines, one reply for each, and may change with each.
pub trait Answering {
    // what the answers depend on and change
    ghost World: { Type 0 };

    // the world that a state holds
    ghost world: { Self → World };

    // what one line may do: the world before, the line, its answer, the world after
    ghost answers: { Handling World };

    // the states in which a line may be handled
    ghost is_ready: { Self → Type 0 };

    /// Handles one line, which stands without its newline, and gives its reply.
    fn handle(&mut self, line: &[u8]) -> Reply
        requires { is_ready self.old }
        ensures ready { is_ready self.new }
        ensures answer { answers (world self.old) line.now (reply_view result) (world self.new) };

    // a line that is longer than a line may be is answered as any other such line
    ghost long_lines_alike: { LongLinesAlike answers };
}
