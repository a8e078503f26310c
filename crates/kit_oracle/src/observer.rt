//! What is kept of a simulation while it runs.

ghost use Rattle.std.specs.Prelude.{◌≡◌, ℕ, ◌+◌, List, [], ◌∷◌, ◌++◌, None, OnOk};
ghost use Rattle.kit_base.specs.declared.history.Line.{Line};
ghost use Rattle.kit_base.specs.declared.history.Line.TheVariants as line;
ghost use Rattle.kit_rules.specs.Parts.{Parts};
ghost use Rattle.kit_rules.specs.Simulation.{next_grant, world_at_start, after_grants};
ghost use Rattle.kit_oracle.specs.Observing.{Adds, IsGrant};

use kit_base::{Line, Message};
use kit_rules::Federation;
use std::alloc::AllocError;

/// What is told of a simulation while it runs: of each delivery, and of each grant after its
/// deliveries, in the order in which [`simulate`](crate::simulate) has them as lines.
///
/// An observer keeps what it likes: a count, the lines up to a time, a text of its own. What that
/// has to do with the simulation it says by `shows`, and each of its calls is proved to keep it.
/// Where it answers that there was no memory, the simulation ends.
pub trait Observer {
    // what it shows of a federation's simulation after so many turns, whose lines are these
    ghost shows: { Parts → ℕ → List Line → Self → Type 0 };

    /// A message is delivered with the grant of a time. Whatever it showed, it shows with one more
    /// line.
    fn deliver(&mut self, granted: u64, federate: u8, message: Message) -> Result<(), AllocError>
        ensures { OnOk result (Adds shows self.old self.new
            (line.Deliver granted federate message ∷ [])) };

    /// A federate is granted a time: the pair is that time and the federate. `made` has all that it
    /// sends at its grant, transported or not.
    fn grant(
        &mut self,
        federation: &Federation,
        pair: (u64, u8),
        made: &[Message],
    ) -> Result<(), AllocError>
        requires { (n : ℕ) × (ls : List Line) × IsGrant federation.now n pair made.now ×
            shows federation.now n ls self.old }
        ensures { (n : ℕ) (ls : List Line) → IsGrant federation.now n pair made.now →
            shows federation.now n ls self.old → OnOk result
            (shows federation.now (n + 1) (ls ++ line.Grant pair.0 pair.1 ∷ []) self.new) };

    // Where no federate stands below the end, a further turn changes nothing. Whoever does not
    // count turns has this at once, as a list of lines does.
    ghost over: { (p : Parts) (n : ℕ) (ls : List Line) (s : Self) →
        next_grant p (after_grants p n (world_at_start p)) ≡ None →
        shows p n ls s → shows p (n + 1) ls s };
}

/// The lines of a simulation, one after another.
impl Observer for Vec<Line> {
    ghost shows = { λ _ _ ls v. v.items ≡ ls };

    ghost over = { λ p n ls s none h. h };

    fn deliver(&mut self, granted: u64, federate: u8, message: Message) -> Result<(), AllocError> {
        self.push(Line::Deliver {
            granted,
            federate,
            message,
        })?;
        Ok(())
    }

    fn grant(
        &mut self,
        _federation: &Federation,
        pair: (u64, u8),
        _made: &[Message],
    ) -> Result<(), AllocError> {
        self.push(Line::Grant {
            time: pair.0,
            federate: pair.1,
        })?;
        Ok(())
    }
}
