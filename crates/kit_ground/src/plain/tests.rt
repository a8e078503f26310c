use super::*;
use crate::{Bare, Ground, Reg, Unmoved};
use std::test::Fail;

#[test]
fn passes_a_buffer_on(rt: HostRuntime) -> Result<(), Fail> {
    let mut floor = PlainFloor::<Bare>::new(rt.alloc(), 2, 1, &Known::new(&()))?;
    assert!(rt; floor.look_free::<Unmoved>(0));
    floor.write_part::<Unmoved>(0, 0, 84_279_303);
    floor.write_part::<Unmoved>(0, 1, 25_769_803_777);
    floor.charge::<Unmoved>(0, 2);
    floor.post::<Unmoved>(0, 1);
    assert!(rt; !floor.look_free::<Unmoved>(0));
    floor.seat(1);
    let mail = floor.collect::<Unmoved>(0, 0);
    assert!(rt; mail == 1);
    let rest = floor.collect::<Unmoved>(0, 0);
    assert!(rt; rest == 0);
    assert_eq!(rt; floor.read_part::<Unmoved>(0, 0, 1), 25_769_803_777);
    floor.release::<Unmoved>(0, 0);
    floor.seat(0);
    assert!(rt; floor.look_free::<Unmoved>(0));
    Ok(())
}

#[test]
fn mail_goes_by_64_buffers(rt: HostRuntime) -> Result<(), Fail> {
    let mut floor = PlainFloor::<Bare>::new(rt.alloc(), 2, 65, &Known::new(&()))?;
    floor.seat(1);
    assert_eq!(rt; floor.collect::<Unmoved>(0, 0), 0);
    floor.seat(0);
    assert!(rt; floor.look_free::<Unmoved>(0));
    floor.write_part::<Unmoved>(0, 0, 1);
    floor.write_part::<Unmoved>(0, 1, 2);
    floor.charge::<Unmoved>(0, 2);
    floor.post::<Unmoved>(0, 1);
    assert!(rt; floor.look_free::<Unmoved>(64));
    floor.write_part::<Unmoved>(64, 0, 3);
    floor.write_part::<Unmoved>(64, 1, 4);
    floor.charge::<Unmoved>(64, 2);
    floor.post::<Unmoved>(64, 1);
    floor.seat(1);
    assert_eq!(rt; floor.collect::<Unmoved>(0, 1), 1);
    assert_eq!(rt; floor.collect::<Unmoved>(0, 0), 1);
    Ok(())
}

#[test]
fn all_see_what_one_shows(rt: HostRuntime) -> Result<(), Fail> {
    let mut floor = PlainFloor::<Bare>::new(rt.alloc(), 2, 1, &Known::new(&()))?;
    assert!(rt; floor.buffers() == 1);
    assert!(rt; !floor.stopped::<Unmoved>());
    let clock = Reg { owner: 0, slot: 12 };
    floor.publish::<Unmoved>(clock, 7);
    floor.stop::<Unmoved>();
    floor.seat(1);
    assert!(rt; floor.stopped::<Unmoved>());
    assert_eq!(rt; floor.look::<Unmoved>(clock), 7);
    Ok(())
}
