ghost use Rattle.std.specs.Prelude.{◌≡◌, ◌≤◌, ℕ, List, IfOk, IfSome, IfNone, length};
ghost use Rattle.kit_schedule.specs.Schedules.{IsSchedule, OneSchedule};

use crate::Word;
use crate::repetition::Repetition;
use std::alloc::{AllocError, Global};
use std::marker::Model;

/// The most entries of a schedule.
const MOST_ENTRIES: usize = 16_777_216;

/// The turns of a run, each by the number of the federate that is given it. A federate with such a
/// number need not exist.
#[derive(Debug, Drop)]
pub struct Schedule {
    entries: Vec<u8>,
}

impl Model for Schedule {
    ghost use Rattle.std.specs.Prelude.{List, ℕ, ◌≤◌, length};

    ghost Value = { List ℕ };

    ghost view = { λ s. s.entries.items };

    ghost invariant = { λ s. length s.entries.items ≤ 16777216 };
}

impl Schedule {
    /// Its entries, in the order of the turns.
    pub fn entries(&self) -> &[u8]
        ensures value { result.now ≡ self.now }
        ensures short { length self.now ≤ 16777216 }
    {
        &self.entries
    }
}

/// How many entries the schedule of these words has; `None` where they write none.
fn length_of(words: &[Word]) -> Option<usize>
    ensures some { IfSome result
        (λ n. (entries : List ℕ) × IsSchedule words.now entries × (length entries ≡ n)) }
    ensures none { IfNone result ((entries : List ℕ) → IsSchedule words.now entries → ⊥) }
{
    let mut length = 0;
    for word in words {
        let added = Repetition::of(word.bytes())?.len()?;
        if added > MOST_ENTRIES - length {
            return None;
        }
        length += added;
    }
    Some(length)
}

/// The schedule that these words write; `Ok(None)` where they write none.
///
/// A word is one or more letters `a` to `p`, for federates 0 to 15, or `C*` and such letters, which
/// stands for `C` repetitions of them. Nothing is repeated before the length of the whole is known.
pub fn schedule_of(alloc: Global, words: &[Word]) -> Result<Option<Schedule>, AllocError>
    ensures some { IfOk result (λ found. IfSome found (IsSchedule words.now)) }
    ensures none { IfOk result
        (λ found. IfNone found ((entries : List ℕ) → IsSchedule words.now entries → ⊥)) }
{
    let Some(length) = length_of(words) else {
        return Ok(None);
    };
    let mut entries = Vec::with_capacity(alloc, length)?;
    for word in words {
        let Some(repetition) = Repetition::of(word.bytes()) else {
            return Ok(None);
        };
        repetition.write(&mut entries)?;
    }
    Ok(Some(Schedule { entries }))
}

/// Words write one schedule at most.
pub fn one_schedule()
    ensures { OneSchedule }
{}
