use crate::federation_of;
use crate::picks::pick;
use kit_rules::{Action, Operand, Wish};
use std::test::Fail;

#[test]
fn picks_of_number_0(rt: HostRuntime) -> Result<(), Fail> {
    for (place, count, want) in [(1, 13, 8), (100, 5, 1), (200, 9, 5), (400, 4, 2)] {
        let found = if count > 0 { pick(0, place, count) } else { 0 };
        assert_eq!(rt; found, want, "at {place}");
    }
    Ok(())
}

#[test]
fn federation_of_number_0(rt: HostRuntime) -> Result<(), Fail> {
    let federation = federation_of(rt.alloc(), 0)?;
    assert_eq!(rt; federation.end(), 2000);
    assert_eq!(rt; federation.buffers(), 32);
    assert_eq!(rt; federation.federates().len(), 12);
    assert_eq!(rt; federation.groups().len(), 12);
    let Some(first) = federation.federates().first() else {
        panic!(rt; "no federate");
    };
    assert_eq!(rt; first.name.bytes(), b"f0".as_slice());
    assert_eq!(rt; first.lookahead, Some(2));
    assert_eq!(rt; first.advance, Wish::Tar(6));
    let Some(last) = first.rules.as_slice().last() else {
        panic!(rt; "no rule");
    };
    let send = Action::Send {
        group: 0,
        delay: 4,
        value: Operand::Now,
        keep: Some(2),
    };
    assert_eq!(rt; last.actions.as_slice(), [send].as_slice());
    let Some(group) = federation.groups().last() else {
        panic!(rt; "no group");
    };
    assert_eq!(rt; group.name.bytes(), b"g11".as_slice());
    assert_eq!(rt; group.members, 0b101);
    Ok(())
}

#[test]
fn last_32_bits_count(rt: HostRuntime) -> Result<(), Fail> {
    let one = federation_of(rt.alloc(), 7)?;
    let other = federation_of(rt.alloc(), 7 + (1 << 32))?;
    assert_eq!(rt; one.federates().len(), other.federates().len());
    for (a, b) in one.federates().iter().zip(other.federates()) {
        assert_eq!(rt; a.advance, b.advance);
        assert_eq!(rt; a.lookahead, b.lookahead);
    }
    Ok(())
}
