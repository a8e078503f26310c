//! A table, at which items are dealt.
ghost use Rattle.std.specs.Prelude.{◌≡◌, ◌≤◌, ◌<◌, ℕ, All, length, IfOk};
ghost use Rattle.std.specs.List.{sum_by};
ghost use Rattle.crossbeam_queue.specs.Passes.{view, IsPassOf, ruled_capacity};
ghost use Rattle.kit_deal.specs.Dealings.{AllHaveEnded, AreAll, Holds, IsLaid, IsOpen};
ghost use Rattle.kit_deal.specs.Dealings.{all_parts};

use crate::rule::{Queue, Token};
use crate::serve::{crew, give, serve};
use crate::{Deal, Gate, Shop, Through};
use std::alloc::{AllocError, Global};
use std::sync::Wait;
use std::thread::Threads;

/// An empty queue for all that is dealt, and room for all that comes back.
#[derive(Drop)]
pub struct Table<D: Deal>
where
    D::Item: Drop,
{
    queue: Queue<D>,
    token: Token<D>,
    kept: Vec<D::Item>,
}

impl<D: Deal> Table<D>
where
    D::Item: Drop,
{
    /// A table for so many items: all the memory without which they can't be dealt. It fails only
    /// for want of memory.
    pub fn new(alloc: Global, count: usize) -> Result<Table<D>, AllocError>
        requires some { 0 < count }
        requires count { count ≡ length D.all }
        ensures { IfOk result (λ t. IsLaid D.all t.queue t.token t.kept) }
    {
        let (queue, token) = Queue::<D>::ruled(alloc, count)?;
        let kept = Vec::with_capacity(alloc, count)?;
        Ok(Table { queue, token, kept })
    }
}

/// Puts all items into the queue.
fn give_all<D: Deal, R: Wait>(
    rt: &R,
    queue: &Queue<D>,
    token: Token<D>,
    items: Vec<D::Item>,
) -> Token<D>
where
    D::Item: Drop,
    requires queue { IsPassOf queue.now token }
    requires capacity { ruled_capacity queue.now ≡ length D.all }
    requires go_on { All (IsOpen D.Fits D.has_ended) items.items }
    requires holds { Holds D.number (view token) items.items }
    ensures queue { IsPassOf queue.now result }
    ensures parts { (view result).parts ≡ (view token).parts }
    ensures empty { (h : ℕ → ℕ) → sum_by h (view result).held ≡ 0 }
{
    let mut token = token;
    for item in items {
        give::<D, R>(rt, queue, &mut token, item);
    }
    token
}

/// Deals items to as many workers as there are gates, each in a thread of its own where one can be
/// started. A worker takes an item, gives it one turn and puts it back, until it has been worked to
/// its end, and ends where it finds none. What is then left, the caller works. A worker whose turns
/// are all idle waits longer and longer before the next.
///
/// Each item comes back once, worked to its end. Which worker works it, and in which order the
/// items come back, is not said. It takes no memory that it cannot do without: a worker that gets
/// none for what it would keep takes no item.
pub fn deal<D, S, G, R>(
    rt: &R,
    alloc: Global,
    table: Table<D>,
    shop: &S,
    gates: &mut [G],
    items: Vec<D::Item>,
) -> Vec<D::Item>
where
    D: Deal + Sync,
    D::Item: Drop + Send,
    S: Shop<D> + Sync,
    G: Gate + Send,
    R: Threads + Wait + Sync,
    requires table { IsLaid D.all table.queue table.token table.kept }
    requires gates { length gates.old ≤ all_parts }
    requires all { AreAll D.number D.all items.items }
    requires go_on { All (IsOpen D.Fits D.has_ended) items.items }
    ensures once { AreAll D.number D.all result.items }
    ensures ended { AllHaveEnded D.has_ended result.items }
    ensures fits { All D.Fits result.items }
{
    let Table { queue, token, kept } = table;
    let token = give_all::<D, R>(rt, &queue, token, items);
    let (token, kept) = crew::<D, S, G, R>(rt, alloc, &queue, shop, gates, token, kept);
    let (_, kept) = serve::<D, S, Through, R>(rt, &queue, shop, &mut Through, token, kept);
    kept
}
