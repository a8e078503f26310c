//! Which own message a Retraction may name, found by its number.

ghost use Rattle.std.specs.Prelude.{◌≡◌, ◌<◌, ◌≤◌, ◌+◌, ◌^◌, ℕ, false, length, find, IfSome};
ghost use Rattle.std.specs.Prelude.{slice_index_or};
ghost use Rattle.std.specs.List.{list_any};
ghost use Rattle.kit_rules.specs.Step.{takes_back, is_target, no_message, AreMarked};

use crate::Scene;
use kit_base::{Kind, Message};

/// Whether a message is a Retraction that names this number.
fn names(message: &Message, number: u32) -> bool
    ensures { result ≡ takes_back number message.now }
{
    matches!(message.kind, Kind::Retraction) && message.value == number
}

/// Whether a Retraction among the sends names this number. A mark is believed only where the
/// send that it points to is such a Retraction, so a mark that outlived its send does no harm.
pub(crate) fn is_taken_back(sends: &[Message], marks: &[u16], number: u32) -> bool
    requires marked { AreMarked sends.now marks.now }
    requires low { 1 ≤ number }
    requires high { number ≤ length sends.now }
    ensures { result ≡ list_any (takes_back number) sends.now }
{
    let mark = marks[number as usize - 1] as usize;
    if mark == 0 || sends.len() < mark {
        return false;
    }
    names(&sends[mark - 1], number)
}

/// Whether a message is an Event of this number that is timed by the end, late enough to be taken
/// back, and not taken back before.
fn is_open(scene: &Scene, sends: &[Message], marks: &[u16], number: u32, message: &Message) -> bool
    requires time { scene.now.time < 2 ^ 32 }
    requires marked { AreMarked sends.now marks.now }
    requires low { 1 ≤ number }
    requires high { number ≤ length sends.now }
    ensures { result ≡ is_target scene.now sends.now number message.now }
{
    matches!(message.kind, Kind::Event)
        && message.number as u32 == number
        && message.time <= scene.end
        && scene.time + scene.lookahead as u64 <= message.time
        && !is_taken_back(sends, marks, number)
}

/// The own Event of a number, where it may still be taken back.
pub(crate) fn target(
    scene: &Scene,
    sends: &[Message],
    marks: &[u16],
    number: u32,
) -> Option<Message>
    requires time { scene.now.time < 2 ^ 32 }
    requires numbered { (k : ℕ) → k < length sends.now
        → (slice_index_or sends.now k no_message).number ≡ k + 1 }
    requires marked { AreMarked sends.now marks.now }
    ensures first { result ≡ find (is_target scene.now sends.now number) sends.now }
    ensures named { IfSome result (λ m. (1 ≤ m.number) × (m.number ≤ length sends.now)
        × (list_any (takes_back m.number) sends.now ≡ false)) }
{
    if number == 0 || sends.len() < number as usize {
        return None;
    }
    let message = sends[number as usize - 1];
    if is_open(scene, sends, marks, number, &message) {
        Some(message)
    } else {
        None
    }
}
