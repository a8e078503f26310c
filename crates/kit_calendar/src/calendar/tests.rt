ghost use Rattle.std.specs.Prelude.{◌≡◌, true, IfOk};
ghost use Rattle.kit_queue.specs.Entries.{IsInOrder, put_entry};

use super::*;
use kit_base::Kind;
use kit_queue::TsQueue;
use std::process::Abort;
use std::test::Fail;

/// Inserts an entry, unless one of its sender and number waits.
fn add<Q: Order>(queue: &mut Q, entry: Entry) -> Result<bool, AllocError>
    ensures added { IfOk result (λ b. b ≡ true →
        Q.entries queue.new ≡ put_entry entry (Q.entries queue.old)) }
    ensures in_order { IsInOrder (Q.entries queue.new) }
{
    let Message { sender, number, .. } = entry.message;
    if queue.retract(sender, number).is_some() {
        return Ok(false);
    }
    queue.insert(entry)?;
    Ok(true)
}

fn filled<Q: Order>(alloc: Global, entries: &[Entry]) -> Result<Q, AllocError> {
    let mut queue = Q::empty(alloc);
    queue.reserve(entries.len())?;
    for entry in entries {
        add(&mut queue, *entry)?;
    }
    Ok(queue)
}

fn event(time: u64, sender: u8, number: u16, buffer: Option<u16>) -> Entry {
    let message = Message {
        time,
        sender,
        number,
        kind: Kind::Event,
        group: 1,
        value: 7,
    };
    Entry { message, buffer }
}

/// What the calls of a queue with three entries answer.
fn gives_in_order<Q: Order>(rt: &impl Abort, alloc: Global) -> Result<(), Fail> {
    let (late, middle, first) = (
        event(5, 1, 2, None),
        event(5, 0, 9, None),
        event(4, 3, 1, None),
    );
    let mut queue: Q = filled(alloc, &[late, middle, first])?;
    assert_eq!(rt; queue.least(), Some(4));
    for want in [Some(late), None] {
        assert_eq!(rt; queue.retract(1, 2), want);
    }
    for (time, want) in [(3, None), (5, Some(first)), (5, Some(middle)), (5, None)] {
        assert_eq!(rt; queue.pop_due(time), want, "at {time}");
    }
    assert_eq!(rt; queue.least(), None);
    Ok(())
}

#[test]
fn gives_entries_in_order(rt: HostRuntime) -> Result<(), Fail> {
    gives_in_order::<Calendar>(&rt, rt.alloc())?;
    gives_in_order::<TsQueue>(&rt, rt.alloc())
}

#[test]
fn begins_with_16_buckets_and_doubles_them(rt: HostRuntime) -> Result<(), Fail> {
    let mut calendar = Calendar::empty(rt.alloc());
    for (more, want) in [(32, (16, 1)), (33, (32, 1))] {
        calendar.reserve(more)?;
        assert_eq!(rt; calendar.shape(), want, "room for {more}");
    }
    Ok(())
}

#[test]
fn lays_entries_out_anew(rt: HostRuntime) -> Result<(), Fail> {
    let (soon, later) = (event(10, 0, 1, None), event(74, 0, 2, None));
    let mut calendar: Calendar = filled(rt.alloc(), &[soon, later])?;
    calendar.reserve(63)?;
    assert_eq!(rt; calendar.shape(), (64, 32));
    if calendar.buckets == 64 {
        assert_eq!(rt; calendar.bucket(5), [].as_slice());
        assert_eq!(rt; calendar.bucket(0), [soon].as_slice());
        assert_eq!(rt; calendar.bucket(2), [later].as_slice());
    }
    Ok(())
}

/// What the calls that settle the entries of a queue answer, and what they leave.
fn settles_in_order<Q: Order>(rt: &impl Abort, alloc: Global) -> Result<(), Fail> {
    let given = [
        event(33, 0, 1, Some(2)),
        event(33, 1, 1, None),
        event(47, 0, 2, Some(5)),
    ];
    let mut queue: Q = filled(alloc, &given)?;
    for (below, want) in [
        (33, None),
        (48, Some((0, 2))),
        (48, Some((0, 5))),
        (48, None),
    ] {
        assert_eq!(rt; queue.settle(below), want, "below {below}");
    }
    for entry in given {
        let settled = Entry {
            buffer: None,
            ..entry
        };
        assert_eq!(rt; queue.pop_due(48), Some(settled));
    }
    Ok(())
}

#[test]
fn settles_from_the_least(rt: HostRuntime) -> Result<(), Fail> {
    settles_in_order::<Calendar>(&rt, rt.alloc())?;
    settles_in_order::<TsQueue>(&rt, rt.alloc())
}

/// Takes the first entry and puts it off, so many times, and gives the sum of the times taken.
fn sum_of_holds<Q: Order>(alloc: Global, entries: u16, holds: u64) -> Result<u64, AllocError> {
    let mut queue: Q = filled(alloc, &[])?;
    for number in 0..entries {
        queue.reserve(1)?;
        add(&mut queue, event(u64::from(number % 7), 0, number, None))?;
    }
    let mut sum = 0_u64;
    for turn in 0..holds {
        let Some(first) = queue.pop_due(u64::MAX) else {
            return Ok(sum);
        };
        sum = sum.wrapping_add(first.message.time.wrapping_mul(turn));
        let message = Message {
            time: first.message.time.wrapping_add(turn % 50 * (turn % 3)),
            ..first.message
        };
        add(&mut queue, Entry { message, ..first })?;
    }
    Ok(sum)
}

#[test]
fn gives_what_the_ring_gives_where_rows_grow_and_are_packed(rt: HostRuntime) -> Result<(), Fail> {
    for entries in [1, 40, 100] {
        assert_eq!(rt;
            sum_of_holds::<Calendar>(rt.alloc(), entries, 600)?,
            sum_of_holds::<TsQueue>(rt.alloc(), entries, 600)?,
            "{entries} entries"
        );
    }
    Ok(())
}
