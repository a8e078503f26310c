ghost use Rattle.std.specs.Prelude.{◌≡◌, ◌≢◌, ◌<◌, length};
ghost use Rattle.letter_rounds.specs.Quiet.{IsQuiet};

use kit_courier::{Couriers, Letter, receive, send};
use kit_ground::PlainFloor;

pub const FEDERATES: u8 = 16;

pub const BUFFERS: u16 = 4;

/// One federate sends a letter to another, which receives what came first.
fn pass(
    floor: &mut PlainFloor<Couriers>,
    from: u8,
    to: u8,
    buffer: u16,
    letter: Letter,
) -> Option<Letter>
    requires quiet { IsQuiet floor.old }
    requires from { from < FEDERATES }
    requires to { to < FEDERATES }
    requires other { from ≢ to }
    requires buffer { buffer < BUFFERS }
    ensures quiet { IsQuiet floor.new }
{
    floor.seat(from);
    send(floor, buffer, to, letter);
    floor.seat(to);
    receive(floor, from, 0)
}

/// How many letters came, and the sum of their words modulo 2^64.
pub struct Tally {
    pub letters: u64,
    pub sum: u64,
}

impl Tally {
    fn note(&mut self, letter: Letter) {
        self.letters = self.letters.wrapping_add(1);
        self.sum = self.sum.wrapping_add(letter.head).wrapping_add(letter.body);
    }
}

/// Letters go from each federate in turn to the others in turn, through its buffers in turn.
pub fn send_round(floor: &mut PlainFloor<Couriers>, turns: u64) -> Tally
    requires { IsQuiet floor.old }
    ensures { IsQuiet floor.new }
{
    let federates = u64::from(FEDERATES);
    let buffers = u64::from(BUFFERS);
    let mut came = Tally { letters: 0, sum: 0 };
    for turn in 0..turns {
        let from = turn % federates;
        let on = 1 + turn / federates % (federates - 1);
        let to = (from + on) % federates;
        let buffer = (turn / federates % buffers) as u16;
        let letter = Letter {
            head: turn,
            body: turn / 3,
        };
        if let Some(got) = pass(floor, from as u8, to as u8, buffer, letter) {
            came.note(got);
        }
    }
    came
}
