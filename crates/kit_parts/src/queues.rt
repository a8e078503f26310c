//! Laws of the messages that a federate received, and of those that wait for its grants.

ghost use Rattle.kit_parts.specs.Queues.{QueueTakesEvent, QueueTakesRetraction, QueueDelivers};
ghost use Rattle.kit_parts.specs.Queues.{QueueKeeps, QueueIsReceived, MessagesAreOne};
ghost use Rattle.kit_parts.specs.Queues.{RetractionsAreLike, RetractionsName, QueueSplits};
ghost use Rattle.kit_parts.specs.Queues.{QueueIsOrdered, DueIsReceived, CopiesAreTransported};
ghost use Rattle.kit_parts.specs.Queues.{SettledIsSafe, QueueIsAhead, DueByFirst, NewIsPending};
ghost use Rattle.kit_parts.specs.Queues.{RetractedOnce, DueByQueue, GrantsAgreeByQueue};

/// An Event that is received is put in its place in the queue, where it is pending.
pub fn queue_takes_event()
    ensures { QueueTakesEvent }
{}

/// A Retraction that is received takes out of the queue what it names, by sender and number.
pub fn queue_takes_retraction()
    ensures { QueueTakesRetraction }
{}

/// A grant of a time delivers what stands in the queue and is timed that or less.
pub fn queue_delivers()
    ensures { QueueDelivers }
{}

/// A grant of a time leaves in the queue what is timed later.
pub fn queue_keeps()
    ensures { QueueKeeps }
{}

/// What stands in the queue was received and is pending.
pub fn queue_is_received()
    ensures { QueueIsReceived }
{}

/// Two messages of the simulation of one sender and number are one.
pub fn messages_are_one()
    ensures { MessagesAreOne }
{}

/// A Retraction has the time and the group of what it takes back.
pub fn retractions_are_like()
    ensures { RetractionsAreLike }
{}

/// What a Retraction names is an Event of the simulation, of its sender and a lower number, with
/// its time and group.
pub fn retractions_name()
    ensures { RetractionsName }
{}

/// The queue stands in the order of time, so a grant delivers a front of it.
pub fn queue_splits()
    ensures { QueueSplits }
{}

/// The queue stands strictly in the order of keys, where what was received is of the simulation and
/// nothing twice.
pub fn queue_is_ordered()
    ensures { QueueIsOrdered }
{}

/// What a grant delivers was received, is timed its time or less, and was pending.
pub fn due_is_received()
    ensures { DueIsReceived }
{}

/// Copies for a federate are the transported messages of which it is a receiver.
pub fn copies_are_transported()
    ensures { CopiesAreTransported }
{}

/// Where all is heard below a bound, what stands in the queue and is timed below it is never taken
/// back.
pub fn settled_is_safe()
    ensures { SettledIsSafe }
{}

/// Where all is heard below a bound that is later than now, all that stands in the queue is timed
/// later than now.
pub fn queue_is_ahead()
    ensures { QueueIsAhead }
{}

/// A Next Event Request is due by the first in the queue.
pub fn due_by_first()
    ensures { DueByFirst }
{}

/// An Event that shares its sender and number with nothing that was delivered is pending, unless it
/// was taken back.
pub fn new_is_pending()
    ensures { NewIsPending }
{}

/// No two Retractions of one sender name the same message.
pub fn retracted_once()
    ensures { RetractedOnce }
{}

/// The due time of a federate is that by its queue.
pub fn due_by_queue()
    ensures { DueByQueue }
{}

/// A grant that is due by the queue below what is heard, with what stands first in the queue, is
/// the simulation's next block.
pub fn grants_agree_by_queue()
    ensures { GrantsAgreeByQueue }
{}
