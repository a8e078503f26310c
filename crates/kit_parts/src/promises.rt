//! Laws of promises: what is sent is late enough, and no step of a federate breaks its promise.

ghost use Rattle.kit_parts.specs.PromiseLaws.{StepsSendLate, StartsSendLate, GrantsSendLate};
ghost use Rattle.kit_parts.specs.PromiseLaws.{WaitingKeepsPromise, StartKeepsPromise};
ghost use Rattle.kit_parts.specs.PromiseLaws.{GrantKeepsPromise, PostKeepsPromise, DueIsAhead};
ghost use Rattle.kit_parts.specs.PromiseLaws.{ReceiptKeepsPromise, PromisesAreCapped, LeastIsBelow};

/// A rule step adds to the sends only what is timed now and the effective lookahead or later,
/// Retractions too.
pub fn steps_send_late()
    ensures { StepsSendLate }
{}

/// The start sends only what is timed the effective lookahead or later.
pub fn starts_send_late()
    ensures { StartsSendLate }
{}

/// A grant with its deliveries adds to the sends only what is timed its time and the effective
/// lookahead or later.
pub fn grants_send_late()
    ensures { GrantsSendLate }
{}

/// While sends wait, the promise is no later than now and the effective lookahead.
pub fn waiting_keeps_promise()
    ensures { WaitingKeepsPromise }
{}

/// The start does not lower the promise.
pub fn start_keeps_promise()
    ensures { StartKeepsPromise }
{}

/// A grant at the due time does not lower the promise.
pub fn grant_keeps_promise()
    ensures { GrantKeepsPromise }
{}

/// The last post does not lower the promise, where the request is due no sooner than now.
pub fn post_keeps_promise()
    ensures { PostKeepsPromise }
{}

/// The request is due after now, where all is heard below a bound that is later than now.
pub fn due_is_ahead()
    ensures { DueIsAhead }
{}

/// A receipt leaves at least the least of the promise, the message's time and 1, and the end and 1.
pub fn receipt_keeps_promise()
    ensures { ReceiptKeepsPromise }
{}

/// No promise goes past the end and 1.
pub fn promises_are_capped()
    ensures { PromisesAreCapped }
{}

/// The least of the times by which promises go is below every promise: where nothing is in transit,
/// the federate that has it can go on.
pub fn least_is_below()
    ensures { LeastIsBelow }
{}
