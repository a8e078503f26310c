ghost use Rattle.std.specs.Prelude.{◌≡◌, ℕ, ◌++◌, map, option_to_list, replicate, slice_index};
ghost use Rattle.std.specs.Prelude.{IfOk, Some};
ghost use Rattle.kit_ground.specs.Floors.{new_floor, place_of};
ghost use Rattle.kit_courier.specs.Deliveries.{courier_first};

use crate::{Couriers, Letter, receive, send};
use kit_ground::PlainFloor;
use kit_known::Known;
use std::alloc::{AllocError, Global};

/// The first federate of a new floor sends a letter to the second, which receives what came.
pub fn hand_over(floor: &mut PlainFloor<Couriers>, letter: Letter) -> Option<Letter>
    requires { floor.old ≡ new_floor courier_first 2 2 1 }
    ensures letter { result ≡ Some letter }
    ensures collected { slice_index (place_of courier_first floor.new).own.collects 0 ≡ 1 }
    ensures got { (place_of courier_first floor.new).client.got
        ≡ map (λ got. record { from = 0; letter = got }) (option_to_list result) }
    ensures steps { (sending : ℕ) × (receiving : ℕ)
        × (floor.new.steps ≡ replicate sending 0 ++ replicate receiving 1) }
{
    send(floor, 0, 1, letter);
    floor.seat(1);
    let got = receive(floor, 0, 0);
    // By the rules, which hold here, what came was sent.
    floor.ruled();
    got
}

/// One federate sends a letter to another, on a floor of two.
///
/// What comes is that letter. It fails only for want of memory.
pub fn exchange(alloc: Global, letter: Letter) -> Result<Option<Letter>, AllocError>
    ensures { IfOk result (λ came. came ≡ Some letter) }
{
    let mut floor = PlainFloor::<Couriers>::new(alloc, 2, 1, &Known::new(&2))?;
    Ok(hand_over(&mut floor, letter))
}
