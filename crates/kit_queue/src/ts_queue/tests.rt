ghost use Rattle.std.specs.Prelude.{◌≡◌, true, IfOk};
ghost use Rattle.kit_queue.specs.Entries.{IsInOrder, put_entry};

use super::*;
use kit_base::Kind;
use std::test::Fail;

/// Inserts an entry, unless one of its sender and number waits.
fn add<Q: Order>(queue: &mut Q, entry: Entry) -> Result<bool, AllocError>
    ensures added { IfOk result (λ b. b ≡ true
        → Q.entries queue.new ≡ put_entry entry (Q.entries queue.old)) }
    ensures in_order { IsInOrder (Q.entries queue.new) }
{
    let Message { sender, number, .. } = entry.message;
    if queue.retract(sender, number).is_some() {
        return Ok(false);
    }
    queue.insert(entry)?;
    Ok(true)
}

fn filled<Q: Order>(alloc: Global, entries: &[Entry]) -> Result<Q, AllocError> {
    let mut queue = Q::empty(alloc);
    queue.reserve(entries.len())?;
    for entry in entries {
        add(&mut queue, *entry)?;
    }
    Ok(queue)
}

fn event(time: u64, sender: u8, number: u16, buffer: Option<u16>) -> Entry {
    let message = Message {
        time,
        sender,
        number,
        kind: Kind::Event,
        group: 1,
        value: 7,
    };
    Entry { message, buffer }
}

#[test]
fn gives_entries_in_order(rt: HostRuntime) -> Result<(), Fail> {
    let (late, middle, first) = (
        event(5, 1, 2, None),
        event(5, 0, 9, None),
        event(4, 3, 1, None),
    );
    let mut queue: TsQueue = filled(rt.alloc(), &[late, middle, first])?;
    assert_eq!(rt; queue.least(), Some(4));
    for want in [Some(late), None] {
        assert_eq!(rt; queue.retract(1, 2), want);
    }
    for (time, want) in [(3, None), (5, Some(first)), (5, Some(middle)), (5, None)] {
        assert_eq!(rt; queue.pop_due(time), want, "at {time}");
    }
    assert_eq!(rt; queue.least(), None);
    Ok(())
}

#[test]
fn settles_from_the_least(rt: HostRuntime) -> Result<(), Fail> {
    let given = [
        event(3, 0, 1, Some(2)),
        event(3, 1, 1, None),
        event(7, 0, 2, Some(5)),
    ];
    let mut queue: TsQueue = filled(rt.alloc(), &given)?;
    for (below, want) in [(3, None), (8, Some((0, 2))), (8, Some((0, 5))), (8, None)] {
        assert_eq!(rt; queue.settle(below), want, "below {below}");
    }
    for entry in given {
        assert_eq!(rt;
            queue.pop_due(8),
            Some(Entry {
                buffer: None,
                ..entry
            })
        );
    }
    Ok(())
}
