ghost use Rattle.std.specs.Prelude.{◌≡◌, ◌≤◌, IfOk};
ghost use Rattle.kit_pool.specs.Pools.{no_client};
ghost use Rattle.kit_floor.specs.FloorViews.{IsNewSeatOf, buffers_of, federates_of};
ghost use Rattle.kit_floor.specs.GuestViews.{IsNewGuestOf};

use super::*;
use kit_ground::{Bare, Ground, Reg, Unmoved};
use kit_known::Known;
use std::alloc::{AllocError, Global};
use std::test::Fail;

/// A new floor of two, and both seats.
fn floor_of_two(
    alloc: Global,
    buffers: u16,
) -> Result<(TableFloor<Bare>, FloorSeat<Bare>, FloorSeat<Bare>), AllocError>
    requires { (1 ≤ buffers) × (buffers ≤ 1024) }
    ensures federates { IfOk result (λ r. federates_of r.0 ≡ 2) }
    ensures buffers { IfOk result (λ r. buffers_of r.0 ≡ buffers) }
    ensures first { IfOk result (λ r. IsNewSeatOf (λ _. no_client) r.0 0 r.1) }
    ensures second { IfOk result (λ r. IsNewSeatOf (λ _. no_client) r.0 1 r.2) }
{
    let (floor, mut seats) = TableFloor::<Bare>::lay(alloc, 2, buffers, &Known::new(&()))?;
    let (Some(second), Some(first)) = (seats.pop(), seats.pop()) else {
        unreachable!()
    };
    Ok((floor, first, second))
}

#[test]
fn a_buffer_is_free_again_once_it_was_released(rt: HostRuntime) -> Result<(), Fail> {
    let (floor, first, second) = floor_of_two(rt.alloc(), 1)?;
    let mut first = floor.stand(first);
    let mut second = floor.stand(second);
    assert!(rt; first.look_free::<Unmoved>(0));
    first.write_part::<Unmoved>(0, 0, 84_279_303);
    first.write_part::<Unmoved>(0, 1, 25_769_803_777);
    first.charge::<Unmoved>(0, 2);
    first.post::<Unmoved>(0, 1);
    assert!(rt; !first.look_free::<Unmoved>(0));
    let mail = second.collect::<Unmoved>(0, 0);
    assert!(rt; mail == 1);
    let rest = second.collect::<Unmoved>(0, 0);
    assert!(rt; rest == 0);
    assert_eq!(rt; second.read_part::<Unmoved>(0, 0, 1), 25_769_803_777);
    second.release::<Unmoved>(0, 0);
    assert!(rt; first.look_free::<Unmoved>(0));
    let mut seats = Vec::new(rt.alloc());
    seats.push(first.leave())?;
    seats.push(second.leave())?;
    let account = floor.close(seats);
    assert_eq!(rt; account.clock(0), 0);
    Ok(())
}

#[test]
fn mail_goes_by_64_buffers(rt: HostRuntime) -> Result<(), Fail> {
    let (floor, first, second) = floor_of_two(rt.alloc(), 65)?;
    let mut first = floor.stand(first);
    let mut second = floor.stand(second);
    assert_eq!(rt; second.collect::<Unmoved>(0, 0), 0);
    assert!(rt; first.look_free::<Unmoved>(0));
    first.write_part::<Unmoved>(0, 0, 1);
    first.write_part::<Unmoved>(0, 1, 2);
    first.charge::<Unmoved>(0, 2);
    first.post::<Unmoved>(0, 1);
    assert!(rt; first.look_free::<Unmoved>(64));
    first.write_part::<Unmoved>(64, 0, 3);
    first.write_part::<Unmoved>(64, 1, 4);
    first.charge::<Unmoved>(64, 2);
    first.post::<Unmoved>(64, 1);
    assert_eq!(rt; second.collect::<Unmoved>(0, 1), 1);
    assert_eq!(rt; second.collect::<Unmoved>(0, 0), 1);
    Ok(())
}

#[test]
fn all_see_what_one_shows(rt: HostRuntime) -> Result<(), Fail> {
    let (floor, first, second) = floor_of_two(rt.alloc(), 1)?;
    let mut first = floor.stand(first);
    let mut second = floor.stand(second);
    assert!(rt; !second.stopped::<Unmoved>());
    let clock = Reg { owner: 0, slot: 12 };
    first.publish::<Unmoved>(clock, 7);
    first.stop::<Unmoved>();
    assert!(rt; second.stopped::<Unmoved>());
    assert_eq!(rt; second.look::<Unmoved>(clock), 7);
    let mut seats = Vec::new(rt.alloc());
    seats.push(second.leave())?;
    seats.push(first.leave())?;
    let account = floor.close(seats);
    assert_eq!(rt; account.clock(0), 7);
    Ok(())
}

/// A new floor of one federate with a buffer, its seat, and two guests.
fn watched_floor(
    alloc: Global,
) -> Result<
    (
        TableFloor<Bare>,
        FloorSeat<Bare>,
        GuestSeat<Bare>,
        GuestSeat<Bare>,
    ),
    AllocError,
>
    ensures federates { IfOk result (λ r. federates_of r.0 ≡ 1) }
    ensures seat { IfOk result (λ r. IsNewSeatOf (λ _. no_client) r.0 0 r.1) }
    ensures first { IfOk result (λ r. IsNewGuestOf (λ _. no_client) r.0 1 r.2) }
    ensures second { IfOk result (λ r. IsNewGuestOf (λ _. no_client) r.0 2 r.3) }
{
    let about = Known::new(&());
    let (floor, mut seats, mut guests) = TableFloor::<Bare>::lay_watched(alloc, 1, 1, 2, &about)?;
    let (Some(seat), Some(second), Some(first)) = (seats.pop(), guests.pop(), guests.pop()) else {
        unreachable!()
    };
    Ok((floor, seat, first, second))
}

#[test]
fn guests_see_what_a_federate_shows(rt: HostRuntime) -> Result<(), Fail> {
    let (floor, seat, mut first, mut second) = watched_floor(rt.alloc())?;
    let mut ground = floor.stand(seat);
    assert_eq!(rt; floor.clock::<Unmoved>(&mut first, 0), 0);
    let clock = Reg { owner: 0, slot: 12 };
    ground.publish::<Unmoved>(clock, 7);
    assert_eq!(rt; floor.clock::<Unmoved>(&mut second, 0), 7);
    assert!(rt; !floor.stopped::<Unmoved>(&mut first));
    ground.stop::<Unmoved>();
    assert!(rt; floor.stopped::<Unmoved>(&mut first));
    floor.join_guests(&mut first, second);
    let mut seats = Vec::new(rt.alloc());
    seats.push(ground.leave())?;
    let mut guests = Vec::new(rt.alloc());
    guests.push(first)?;
    let account = floor.close_watched(seats, guests);
    assert_eq!(rt; account.clock(0), 7);
    Ok(())
}
