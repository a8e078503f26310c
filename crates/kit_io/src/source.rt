ghost use Rattle.std.specs.Prelude.{◌≡◌, ℕ, List, Option, Result, is_some};
ghost use Rattle.std.specs.Io.{ReadsAtMost};
ghost use Rattle.std.specs.Io.KnownBytes.{ReadConsumes};
ghost use Rattle.kit_io.specs.declared.Failed.{Failed};
ghost use Rattle.kit_io.specs.Causes.{HasCause};

use crate::Failed;

/// Where bytes come from.
///
/// `left` is told by a source that knows its bytes, as one in memory, and is `None` at one that
/// does not, as one over the standard input. Which of the two it is never changes.
pub trait Source {
    /// The bytes that are left, where the source tells them.
    ghost left: { Self → Option (List ℕ) };

    /// How often it has failed.
    ghost faults: { Self → ℕ };

    /// What a call of `read` may do: the source before it, its answer, what stands in `into` then,
    /// and the source after it.
    ghost read_gives: { Self → Result ℕ Failed → List ℕ → Self → Type 0 };

    /// Moves the first bytes that are left to the front of `into`, and gives their number. Zero
    /// bytes for an `into` that is not empty are the end of the input.
    fn read(&mut self, into: &mut [u8]) -> Result<usize, Failed>
        ensures bound { ReadsAtMost result into.new }

        // Ok(n): the first n bytes were taken, none of them only at the end. Failed: none was.
        ensures bytes { ReadConsumes (left self.old) (left self.new) result into.new }
        ensures tells { is_some (left self.new) ≡ is_some (left self.old) }
        ensures cause { HasCause (faults self.old) (faults self.new) result }
        ensures gives { read_gives self.old result into.new self.new };
}
