//! The steps of a federate: the calls of the floor, each where the protocol allows it.
//!
//! Between any two of them there is a world in which all rules hold and the seat has its place
//! (`IsInWorld`), so that all that the rules say of a place by itself may be cited.

ghost use Rattle.std.specs.Prelude.{◌≡◌, ◌≢◌, ◌==◌, ℕ, ◌+◌, ◌*◌, ◌<◌, ◌≤◌, ◌⊎◌, ◌^◌, true, List};
ghost use Rattle.std.specs.Prelude.{length, count_by, None};
ghost use Rattle.std.specs.List.{list_any};
ghost use Rattle.kit_base.specs.declared.message.Message.{Message};
ghost use Rattle.std.specs.Int.{bit_at};
ghost use Rattle.kit_ground.specs.declared.place.Deed.TheVariants.{SawStop, SawFree, Charged};
ghost use Rattle.kit_ground.specs.declared.place.Deed.TheVariants.{PostedTo, Collected, ReadPart};
ghost use Rattle.kit_ground.specs.declared.place.Deed.TheVariants.{Released, Published};
ghost use Rattle.kit_ground.specs.Layout.{mail_words};
ghost use Rattle.kit_ground.specs.Steps.{buffer_of, place_after};
ghost use Rattle.kit_lbts.specs.AgreementLaws.{MayBeGranted};
ghost use Rattle.kit_lbts.specs.MessageLaws.{HasHead, IsTold, MayCharge, MaySettle};
ghost use Rattle.kit_lbts.specs.Progress.{view_after_grant, message_in, view_after};
ghost use Rattle.kit_lbts.specs.Progress.{view_when_ready};
ghost use Rattle.kit_ground.specs.Layout.{clock_of};
ghost use Rattle.kit_lbts.specs.Seats.{most_sends};
ghost use Rattle.kit_lbts.specs.Views.{due_of, is_in_hand, is_spent};
ghost use Rattle.kit_lbts.specs.SeatLaws.{IsInWorld};
ghost use Rattle.kit_node.specs.Sending.{CarriesMessage, written_place};

use kit_base::{Message, pack_body, pack_head};
use kit_ground::{Ground, Reg};
use kit_lbts::{Lbts, LbtsEvent};

/// Whether the run is to stop.
pub(crate) fn is_stopped<G: Ground<Under = Lbts>>(ground: &mut G) -> bool
    requires { IsInWorld (G.place ground.old) }
    ensures came { G.came ground.old ground.new }
    ensures world { IsInWorld (G.place ground.new) }
    ensures place { G.place ground.new
        ≡ place_after view_after (SawStop result) (G.place ground.old) }
{
    ground.stopped::<LbtsEvent>()
}

/// Whether the count of an own buffer is 0, where no buffer is half posted.
pub(crate) fn is_free<G: Ground<Under = Lbts>>(ground: &mut G, buffer: u16) -> bool
    requires world { IsInWorld (G.place ground.old) }
    requires buffer { buffer < (G.place ground.old).own.buffers }
    requires whole { (G.place ground.old).client.sending ≡ None }
    ensures came { G.came ground.old ground.new }
    ensures world { IsInWorld (G.place ground.new) }
    ensures place { G.place ground.new
        ≡ place_after view_after (SawFree buffer result) (G.place ground.old) }
{
    ground.look_free::<LbtsEvent>(buffer)
}

/// Writes a message and a colour into an own buffer that was seen free.
pub(crate) fn write<G: Ground<Under = Lbts>>(
    ground: &mut G,
    buffer: u16,
    message: &Message,
    colour: u64,
)
    requires world { IsInWorld (G.place ground.old) }
    requires buffer { buffer < (G.place ground.old).own.buffers }
    requires free { (buffer_of (G.place ground.old).own.stock buffer).free ≡ true }
    requires message { CarriesMessage message.now colour }
    ensures came { G.came ground.old ground.new }
    ensures world { IsInWorld (G.place ground.new) }
    ensures place { G.place ground.new
        ≡ written_place message.now colour buffer (G.place ground.old) }
{
    ground.write_part::<LbtsEvent>(buffer, 0, pack_head(message, colour));
    ground.write_part::<LbtsEvent>(buffer, 1, pack_body(message));
}

/// Charges an own buffer that has the first message of the outbox with all of its receivers.
pub(crate) fn charge<G: Ground<Under = Lbts>>(ground: &mut G, buffer: u16, mask: u16)
    requires world { IsInWorld (G.place ground.old) }
    requires may { (first : Message) × (rest : List Message)
        × MayCharge (G.place ground.old) buffer mask first rest }
    ensures came { G.came ground.old ground.new }
    ensures world { IsInWorld (G.place ground.new) }
    ensures place { G.place ground.new
        ≡ place_after view_after (Charged buffer mask) (G.place ground.old) }
{
    ground.charge::<LbtsEvent>(buffer, mask);
}

/// Posts a charged buffer to a federate to which it is still to be posted.
pub(crate) fn post<G: Ground<Under = Lbts>>(ground: &mut G, buffer: u16, to: u8)
    requires world { IsInWorld (G.place ground.old) }
    requires buffer { buffer < (G.place ground.old).own.buffers }
    requires to { to < (G.place ground.old).own.federates }
    requires owed { bit_at (buffer_of (G.place ground.old).own.stock buffer).to_post to ≡ 1 }
    ensures came { G.came ground.old ground.new }
    ensures world { IsInWorld (G.place ground.new) }
    ensures place { G.place ground.new
        ≡ place_after view_after (PostedTo buffer to) (G.place ground.old) }
{
    ground.post::<LbtsEvent>(buffer, to);
}

/// Collects a mail word of another federate. The start's rules join the view here, where they had
/// not.
pub(crate) fn collect<G: Ground<Under = Lbts>>(ground: &mut G, from: u8, word: u8) -> u64
    requires world { IsInWorld (G.place ground.old) }
    requires from { from < (G.place ground.old).own.federates }
    requires other { from ≢ (G.place ground.old).own.number }
    requires word { word < mail_words (G.place ground.old).own.buffers }
    requires numbers { let p = G.place ground.old in
        length (view_when_ready p.own.number p.client).state.sends ≤ most_sends }
    ensures came { G.came ground.old ground.new }
    ensures world { IsInWorld (G.place ground.new) }
    ensures place { G.place ground.new
        ≡ place_after view_after (Collected from word result) (G.place ground.old) }
    ensures inside { (k : ℕ) → bit_at result k ≡ 1
        → (k < 64) × (64 * word + k < (G.place ground.old).own.buffers) }
{
    ground.collect::<LbtsEvent>(from, word)
}

/// Reads the head of a copy that is in hand.
pub(crate) fn read_head<G: Ground<Under = Lbts>>(ground: &mut G, from: u8, buffer: u16) -> u64
    requires world { IsInWorld (G.place ground.old) }
    requires from { from < (G.place ground.old).own.federates }
    requires buffer { buffer < (G.place ground.old).own.buffers }
    requires in_hand { 0 < count_by (is_in_hand from buffer) (G.place ground.old).client.in_hand }
    ensures came { G.came ground.old ground.new }
    ensures world { IsInWorld (G.place ground.new) }
    ensures place { G.place ground.new
        ≡ place_after view_after (ReadPart from buffer 0 result) (G.place ground.old) }
{
    ground.read_part::<LbtsEvent>(from, buffer, 0)
}

/// Reads the body of a copy that is in hand and whose head was read: the copy is received.
pub(crate) fn read_body<G: Ground<Under = Lbts>>(ground: &mut G, from: u8, buffer: u16) -> u64
    requires world { IsInWorld (G.place ground.old) }
    requires from { from < (G.place ground.old).own.federates }
    requires buffer { buffer < (G.place ground.old).own.buffers }
    requires head { (head : ℕ) × HasHead (G.place ground.old) from buffer head }
    ensures came { G.came ground.old ground.new }
    ensures world { IsInWorld (G.place ground.new) }
    ensures place { G.place ground.new
        ≡ place_after view_after (ReadPart from buffer 1 result) (G.place ground.old) }
    ensures told { (head : ℕ) → HasHead (G.place ground.old) from buffer head
        → IsTold (G.place ground.old) from (message_in from head result) }
{
    ground.read_part::<LbtsEvent>(from, buffer, 1)
}

/// Gives a buffer back that is spent, or whose message waits and is timed below the known bound.
pub(crate) fn release<G: Ground<Under = Lbts>>(ground: &mut G, from: u8, buffer: u16)
    requires world { IsInWorld (G.place ground.old) }
    requires from { from < (G.place ground.old).own.federates }
    requires buffer { buffer < (G.place ground.old).own.buffers }
    requires may { let p = G.place ground.old in
        (list_any (is_spent from buffer) p.client.spent ≡ true) ⊎ MaySettle p from buffer }
    ensures came { G.came ground.old ground.new }
    ensures world { IsInWorld (G.place ground.new) }
    ensures place { G.place ground.new
        ≡ place_after view_after (Released from buffer) (G.place ground.old) }
{
    ground.release::<LbtsEvent>(from, buffer);
}

/// The slot of a federate's clock.
const CLOCK: u8 = 12;

/// Shows the time that is granted in the federate's clock: the grant is made.
pub(crate) fn show_time<G: Ground<Under = Lbts>>(ground: &mut G, me: u8, time: u64)
    requires world { IsInWorld (G.place ground.old) }
    requires me { me ≡ (G.place ground.old).own.number }
    requires may { MayBeGranted (G.place ground.old) }
    requires time { time ≡ due_of (G.place ground.old).client }
    requires numbers { let p = G.place ground.old in
        length (view_after_grant p.own.number time p.client).state.sends ≤ most_sends }
    ensures came { G.came ground.old ground.new }
    ensures world { IsInWorld (G.place ground.new) }
    ensures place { G.place ground.new
        ≡ place_after view_after (Published (clock_of me) time) (G.place ground.old) }
{
    let clock = Reg {
        owner: me,
        slot: CLOCK,
    };
    ground.publish::<LbtsEvent>(clock, time);
}
