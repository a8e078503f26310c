ghost use Rattle.std.specs.Prelude.{◌≡◌, ◌≢◌, ℕ, ◌+◌, ◌<◌, ◌^◌, [], ◌∷◌, ◌++◌, if◌then◌else◌};
ghost use Rattle.std.specs.Prelude.{IsTrue, MatchOption, None};
ghost use Rattle.std.specs.Int.{bit_at};
ghost use Rattle.kit_ground.specs.declared.place.Deed.TheVariants.{Collected, PostedTo, SawFree};
ghost use Rattle.kit_ground.specs.Layout.{mail_words};
ghost use Rattle.kit_ground.specs.Steps.{IsSameSeat, buffer_of};
ghost use Rattle.kit_courier.specs.Calls.{HasCollected, HasSeen, IsReceived, IsUnmoved};
ghost use Rattle.kit_courier.specs.Calls.{OwesTheSame, ReceiveLeaves, SendLeaves};
ghost use Rattle.kit_courier.specs.Deliveries.{letter_of};

use crate::{Couriers, Deliveries, Letter};
use kit_ground::Ground;

/// The mask of this federate alone.
fn only(federate: u8) -> u16
    requires { federate < 16 }
    ensures { result ≡ 2 ^ federate }
{
    1 << federate
}

/// Sends a letter in an own buffer to another federate and to nobody else, where the buffer is
/// free.
pub fn send<G: Ground<Under = Couriers>>(seat: &mut G, buffer: u16, to: u8, letter: Letter) -> bool
    requires buffer { buffer < (G.place seat.old).own.buffers }
    requires to { to < (G.place seat.old).own.federates }
    requires other { to ≢ (G.place seat.old).own.number }
    requires posted { (buffer_of (G.place seat.old).own.stock buffer).to_post ≡ 0 }
    ensures came { G.came seat.old seat.new }
    ensures look { (after : G) × G.did seat.old (SawFree buffer result) after }
    ensures free { HasSeen (G.place seat.old) buffer result (G.place seat.new) }
    ensures sent { let sent = (G.place seat.old).client.sent in
        (G.place seat.new).client.sent
        ≡ (if result then sent ++ record { to = 2 ^ to; letter = letter } ∷ [] else sent) }
    ensures written { IsTrue result
        → letter_of (buffer_of (G.place seat.new).own.stock buffer) ≡ letter }
    ensures owed { OwesTheSame (G.place seat.old) (G.place seat.new) }
    ensures post { IsTrue result → (before : G) × G.did before (PostedTo buffer to) seat.new
        × IsSameSeat (G.place seat.old) (G.place before) }
    ensures steps { (G.place seat.new).own.steps
        ≡ (G.place seat.old).own.steps + (if result then 5 else 1) }
    ensures leaves { SendLeaves (G.place seat.old) buffer (G.place seat.new) }
{
    if !seat.look_free::<Deliveries>(buffer) {
        return false;
    }
    seat.write_part::<Deliveries>(buffer, 0, letter.head);
    seat.write_part::<Deliveries>(buffer, 1, letter.body);
    seat.charge::<Deliveries>(buffer, only(to));
    seat.post::<Deliveries>(buffer, to);
    true
}

/// The lowest bit of a mail word.
fn lowest(mail: u64) -> u16
    requires { mail ≢ 0 }
    ensures small { result < 64 }
    ensures posted { bit_at mail result ≡ 1 }
    ensures least { (k : ℕ) → k < result → bit_at mail k ≡ 0 }
{
    mail.trailing_zeros() as u16
}

/// Collects a mail word of another federate, and reads the letter of the lowest of its buffers that
/// were posted.
///
/// The other buffers that were posted stay held.
pub fn receive<G: Ground<Under = Couriers>>(seat: &mut G, from: u8, word: u8) -> Option<Letter>
    requires from { from < (G.place seat.old).own.federates }
    requires other { from ≢ (G.place seat.old).own.number }
    requires word { word < mail_words (G.place seat.old).own.buffers }
    ensures came { G.came seat.old seat.new }
    ensures collect { (mail : ℕ) × (after : G) × G.did seat.old (Collected from word mail) after
        × (result ≡ None → mail ≡ 0) }
    ensures collected { HasCollected (G.place seat.old) from word (G.place seat.new) }
    ensures letter { MatchOption result (IsUnmoved (G.place seat.old) from word (G.place seat.new))
        (λ letter. IsReceived (G.place seat.old) from word letter (G.place seat.new)) }
    ensures leaves { ReceiveLeaves (G.place seat.old) from word (G.place seat.new) }
{
    let mail = seat.collect::<Deliveries>(from, word);
    if mail == 0 {
        return None;
    }
    let low = lowest(mail);
    let buffer = 64 * (word as u16) + low;
    let head = seat.read_part::<Deliveries>(from, buffer, 0);
    let body = seat.read_part::<Deliveries>(from, buffer, 1);
    seat.release::<Deliveries>(from, buffer);
    Some(Letter { head, body })
}
