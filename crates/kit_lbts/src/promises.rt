//! What a federate promises, and when it may be granted its due time.

ghost use Rattle.std.specs.Prelude.{◌≡◌, ◌≤◌, ◌+◌, unwrap_or, IfSome};
ghost use Rattle.kit_rules.specs.Federation.{IsStep};
ghost use Rattle.kit_lbts.specs.Promises.{least_with, may_be_granted, promise_by};

/// What a federate promises: it sends no message that is timed earlier.
///
/// While it waits, which is before its start's rules ran and while messages are still to be posted,
/// it promises by its logical time `now`, and otherwise by the time at which its request is due.
/// One that is not regulating has no lookahead, and promises past the end.
pub fn promise(end: u64, lookahead: Option<u64>, now: u64, due: u64, waiting: bool) -> u64
    requires end { IsStep end }
    requires lookahead { IfSome lookahead IsStep }
    requires now { now ≤ end }
    requires due { due ≤ end }
    ensures { result ≡ promise_by end (unwrap_or lookahead (end + 1)) now due waiting }
{
    let from = if waiting { now } else { due };
    let add = lookahead.unwrap_or(end + 1);
    if now >= end {
        end + 1
    } else {
        (end + 1).min(from + add)
    }
}

/// The low of a contribution: the promise, or the least time of the posts of the run's colour.
pub fn low_of(promise: u64, least_post: Option<u64>) -> u64
    ensures { result ≡ least_with promise least_post }
{
    match least_post {
        None => promise,
        Some(time) => promise.min(time),
    }
}

/// Whether a federate may be granted its due time, by the bound that it knows.
pub fn may_grant(due: u64, bound: u64) -> bool
    ensures { result ≡ may_be_granted due bound }
{
    due < bound
}
