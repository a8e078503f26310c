ghost use Rattle.std.specs.Prelude.{◌≡◌, IfOk};
ghost use Rattle.kit_queue.specs.Entries.{first_due};

use crate::draws::{Draws, Increments, increment_of};
use kit_base::{Kind, Message};
use kit_queue::{Entry, Order};
use std::alloc::{AllocError, Global};

/// Takes the first entry and inserts it again, `later` later. It gives the entry that it took.
fn hold<Q: Order>(queue: &mut Q, later: u64) -> Result<Option<Entry>, AllocError>
    ensures { IfOk result (λ first. first ≡ first_due u64.MAX (Q.entries queue.old)) }
{
    let Some(first) = queue.pop_due(u64::MAX) else {
        return Ok(None);
    };
    let message = Message {
        time: first.message.time.saturating_add(later),
        ..first.message
    };
    queue.insert(Entry { message, ..first })?;
    Ok(Some(first))
}

/// Inserts an entry, unless one of its number waits. Room is made first, as the entries grow.
fn put<Q: Order>(queue: &mut Q, time: u64, number: u16) -> Result<(), AllocError> {
    if queue.retract(0, number).is_some() {
        return Ok(());
    }
    queue.reserve(1)?;
    let message = Message {
        time,
        sender: 0,
        number,
        kind: Kind::Event,
        group: 0,
        value: 0,
    };
    queue.insert(Entry {
        message,
        buffer: None,
    })
}

/// The sum, modulo 2^64, of the times taken from a queue of so many entries.
pub fn hold_many<Q: Order>(
    alloc: Global,
    increments: Increments,
    entries: u16,
    holds: u64,
) -> Result<u64, AllocError> {
    let mut draws = Draws::new();
    let mut queue = Q::empty(alloc);
    for number in 0..entries {
        put(&mut queue, increment_of(increments, draws.draw()), number)?;
    }
    let mut sum = 0_u64;
    for _ in 0..holds {
        let first = hold(&mut queue, increment_of(increments, draws.draw()))?;
        sum = sum.wrapping_add(first.map_or(0, |entry| entry.message.time));
    }
    Ok(sum)
}
