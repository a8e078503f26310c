//! One worker, and a crew of them.
ghost use Rattle.std.specs.Prelude.{◌≡◌, ◌+◌, ◌≤◌, ◌<◌, [], ◌∷◌, ◌++◌, length, vec_capacity};
ghost use Rattle.crossbeam_queue.specs.Passes.{view, IsPassOf, ruled_capacity};
ghost use Rattle.kit_deal.specs.Dealings.{AreAll, GivesNumber, HasReturned, HoldsNumber};
ghost use Rattle.kit_deal.specs.Dealings.{IsFreshWorker, IsKept, IsLeadOf, IsOpen, IsTokenOf};
ghost use Rattle.kit_deal.specs.Dealings.{all_parts};

use crate::backoff::Backoff;
use crate::rule::{Another, Gives, Queue, Takes, Together, Token, Within};
use crate::{Activity, Deal, Gate, Shop};
use std::alloc::Global;
use std::sync::Wait;
use std::thread::{Threads, join};

/// Puts an item into the queue. It is never full.
pub(crate) fn give<D: Deal, R: Wait>(rt: &R, queue: &Queue<D>, token: &mut Token<D>, item: D::Item)
where
    D::Item: Drop,
    requires queue { IsPassOf queue.now token.old }
    requires capacity { ruled_capacity queue.now ≡ length D.all }
    requires goes_on { IsOpen D.Fits D.has_ended item }
    requires holds { HoldsNumber (view token.old) (D.number item) }
    ensures queue { IsPassOf queue.now token.new }
    ensures given { GivesNumber (view token.old) (D.number item) (view token.new) }
{
    match queue.push_as::<Gives<D>, R>(rt, token, item) {
        Ok(()) => (),
        Err(_) => unreachable!(),
    }
}

/// Puts an item beside those that are kept. There is room for it.
fn keep<T: Drop>(kept: &mut Vec<T>, item: T)
    requires { length kept.old.items < vec_capacity kept.old }
    ensures items { kept.new.items ≡ kept.old.items ++ item ∷ [] }
    ensures room { vec_capacity kept.old ≤ vec_capacity kept.new }
{
    match kept.push(item) {
        Ok(()) => (),
        Err(_) => unreachable!(),
    }
}

/// Takes an item at a time from the queue and gives it one turn, until the queue is empty. An item
/// that has been worked to its end is kept, and the others go back.
pub(crate) fn serve<D: Deal, S: Shop<D>, G: Gate, R: Wait>(
    rt: &R,
    queue: &Queue<D>,
    shop: &S,
    gate: &mut G,
    token: Token<D>,
    kept: Vec<D::Item>,
) -> (Token<D>, Vec<D::Item>)
where
    D::Item: Drop,
    requires token { IsTokenOf D.all queue.now token }
    requires room { length D.all ≤ vec_capacity kept }
    requires kept { IsKept D.number D.Fits D.has_ended (view token) kept.items }
    ensures token { IsTokenOf D.all queue.now result.0 }
    ensures parts { (view result.0).parts ≡ (view token).parts }
    ensures room { length D.all ≤ vec_capacity result.1 }
    ensures kept { IsKept D.number D.Fits D.has_ended (view result.0) result.1.items }
    ensures whole { (view token).parts ≡ all_parts → AreAll D.number D.all result.1.items }
{
    let mut token = token;
    let mut kept = kept;
    let mut backoff = Backoff::new(queue.capacity());
    for _ in rt.forever() {
        let item = match queue.pop_as::<Takes<D>, R>(rt, &mut token) {
            None => return (token, kept),
            Some(item) => item,
        };
        let (item, activity) = shop.work(gate, item);
        match activity {
            Activity::Ended => keep(&mut kept, item),
            Activity::Worked | Activity::Idle => give::<D, R>(rt, queue, &mut token, item),
        }
        backoff.after(activity);
    }
    unreachable!()
}

/// One worker with a hand of its own. Where there is no memory for what it keeps, it takes nothing.
fn serve_alone<D: Deal, S: Shop<D>, G: Gate, R: Wait>(
    rt: &R,
    alloc: Global,
    queue: &Queue<D>,
    shop: &S,
    gate: &mut G,
    token: Token<D>,
) -> (Token<D>, Vec<D::Item>)
where
    D::Item: Drop,
    requires token { IsTokenOf D.all queue.now token }
    requires empty { (view token).held ≡ [] }
    ensures token { IsTokenOf D.all queue.now result.0 }
    ensures parts { (view result.0).parts ≡ (view token).parts }
    ensures kept { IsKept D.number D.Fits D.has_ended (view result.0) result.1.items }
{
    let Ok(kept) = Vec::with_capacity(alloc, queue.capacity()) else {
        return (token, Vec::new(alloc));
    };
    serve::<D, S, G, R>(rt, queue, shop, gate, token, kept)
}

/// Takes in what another worker kept, with its hand.
fn take_in<D: Deal>(
    queue: &Queue<D>,
    token: &mut Token<D>,
    kept: &mut Vec<D::Item>,
    other: Token<D>,
    more: Vec<D::Item>,
)
where
    D::Item: Drop,
    requires token { IsTokenOf D.all queue.now token.old }
    requires other { IsTokenOf D.all queue.now other }
    requires room { length D.all ≤ vec_capacity kept.old }
    requires kept { IsKept D.number D.Fits D.has_ended (view token.old) kept.old.items }
    requires more { IsKept D.number D.Fits D.has_ended (view other) more.items }
    ensures token { IsTokenOf D.all queue.now token.new }
    ensures parts { (view token.new).parts ≡ (view token.old).parts + (view other).parts }
    ensures room { length D.all ≤ vec_capacity kept.new }
    ensures kept { IsKept D.number D.Fits D.has_ended (view token.new) kept.new.items }
{
    queue.absorb::<Together>(token, other);
    queue.learn_as::<Within<D>>(token);
    let mut more = more;
    match kept.append(&mut more) {
        Ok(()) => (),
        Err(_) => unreachable!(),
    }
}

/// Workers, one for each gate, each in a thread of its own where one can be started. Where one
/// can't be started, the caller does its work.
#[cycle(crew)]
pub(crate) fn crew<D, S, G, R>(
    rt: &R,
    alloc: Global,
    queue: &Queue<D>,
    shop: &S,
    gates: &mut [G],
    token: Token<D>,
    kept: Vec<D::Item>,
) -> (Token<D>, Vec<D::Item>)
where
    D: Deal + Sync,
    D::Item: Drop + Send,
    S: Shop<D> + Sync,
    G: Gate + Send,
    R: Threads + Wait + Sync,
    requires token { IsTokenOf D.all queue.now token }
    requires parts { length gates.old ≤ (view token).parts }
    requires room { length D.all ≤ vec_capacity kept }
    requires kept { IsKept D.number D.Fits D.has_ended (view token) kept.items }
    ensures token { IsTokenOf D.all queue.now result.0 }
    ensures parts { (view result.0).parts ≡ (view token).parts }
    ensures room { length D.all ≤ vec_capacity result.1 }
    ensures kept { IsKept D.number D.Fits D.has_ended (view result.0) result.1.items }
{
    let Some((first, rest)) = gates.split_first_mut() else {
        return (token, kept);
    };
    if rest.is_empty() {
        return serve::<D, S, G, R>(rt, queue, shop, first, token, kept);
    }
    let mut token = token;
    let mine = queue.another::<Another>(&mut token);
    let ((mine, more), (token, kept)) = join(
        rt,
        move || -> (Token<D>, Vec<D::Item>)
            requires { IsFreshWorker D.all queue.now mine }
            ensures { HasReturned D.number D.Fits D.has_ended D.all 1
                queue.entry.now result.0 result.1 }
        { serve_alone::<D, S, G, R>(rt, alloc, queue, shop, first, mine) },
        move || -> (Token<D>, Vec<D::Item>)
            requires { IsLeadOf D.number D.Fits D.has_ended D.all (length rest.now)
                queue.now token kept }
            ensures { HasReturned D.number D.Fits D.has_ended D.all (view token).parts
                queue.entry.now result.0 result.1
                × (length D.all ≤ vec_capacity result.1) }
        { crew::<D, S, G, R>(rt, alloc, queue, shop, rest, token, kept) },
    );
    let mut token = token;
    let mut kept = kept;
    take_in::<D>(queue, &mut token, &mut kept, mine, more);
    (token, kept)
}
