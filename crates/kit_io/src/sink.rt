ghost use Rattle.std.specs.Prelude.{◌≡◌, ◌<◌, ℕ, List, Option, Result, is_some, length, IfOk};
ghost use Rattle.std.specs.Io.{WritesAtMost};
ghost use Rattle.std.specs.Io.KnownBytes.{WriteAppends};
ghost use Rattle.kit_io.specs.declared.Failed.{Failed};
ghost use Rattle.kit_io.specs.Causes.{HasCause};

use crate::Failed;

/// Where bytes go to.
///
/// `holds` is told by a sink that knows its bytes, as one in memory, and is `None` at one that does
/// not, as one over the standard output. Which of the two it is never changes.
pub trait Sink {
    /// The bytes that it holds, where the sink tells them.
    ghost holds: { Self → Option (List ℕ) };

    /// How often it has failed.
    ghost faults: { Self → ℕ };

    /// What a call of `write` may do: the sink before it, the bytes of `from`, its answer, and the
    /// sink after it.
    ghost write_gives: { Self → List ℕ → Result ℕ Failed → Self → Type 0 };

    /// Takes the first bytes of `from`, and gives their number. A call that takes none of a piece
    /// that is not empty fails.
    fn write(&mut self, from: &[u8]) -> Result<usize, Failed>
        ensures bound { WritesAtMost result from.now }
        ensures some { IfOk result (λ n. 0 < length from.now → 0 < n) }

        // Ok(n): the first n bytes stand at the end of what it holds. Failed: nothing was taken.
        ensures bytes { WriteAppends (holds self.old) (holds self.new) result from.now }
        ensures tells { is_some (holds self.new) ≡ is_some (holds self.old) }
        ensures cause { HasCause (faults self.old) (faults self.new) result }
        ensures gives { write_gives self.old from.now result self.new };
}
