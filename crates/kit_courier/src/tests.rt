use super::*;
use kit_ground::PlainFloor;
use kit_known::Known;
use std::test::Fail;
use std::thread::join;

#[test]
fn a_letter_comes(rt: HostRuntime) -> Result<(), Fail> {
    let letter = Letter { head: 7, body: 9 };
    let got = exchange(rt.alloc(), letter)?;
    assert!(rt; got == Some(letter));
    Ok(())
}

#[test]
fn one_clock_is_found_by_the_other(rt: HostRuntime) -> Result<(), Fail> {
    let mut floor = PlainFloor::<Couriers>::new(rt.alloc(), 2, 1, &Known::new(&2))?;
    let none = advance(&mut floor, 5);
    floor.seat(1);
    let other = advance(&mut floor, 3);
    assert!(rt; none == 0);
    assert!(rt; other == 5);
    Ok(())
}

#[test]
fn a_floor_goes_to_another_thread(rt: HostRuntime) -> Result<(), Fail> {
    let floor = PlainFloor::<Couriers>::new(rt.alloc(), 2, 1, &Known::new(&2))?;
    let (one, two) = join(
        &rt,
        move || {
            let mut floor = floor;
            floor.seat(0);
            1
        },
        move || 2,
    );
    assert!(rt; one + two == 3);
    Ok(())
}
