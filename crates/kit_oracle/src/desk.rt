ghost use Rattle.std.specs.Prelude.{◌≡◌, ◌≤◌, length, None};
ghost use Rattle.kit_rules.specs.Delivery.{request_due};
ghost use Rattle.kit_rules.specs.Simulation.{least_pair, sooner_pair};
ghost use Rattle.kit_oracle.specs.Desks.{waiting_at};
ghost use Rattle.kit_oracle.specs.Pending.{first_time};

use crate::pending::PendingMessages;
use kit_rules::{FedState, Request};

/// What the simulation keeps of a federate: its time, its request, its state, and the messages
/// that are pending for it.
#[derive(Drop)]
pub struct Desk {
    pub now: u64,
    pub request: Request,
    pub state: FedState,
    pub queue: PendingMessages,
}

/// When a request is due. The messages are looked at only where it asks for them.
fn due(request: Request, queue: &PendingMessages) -> u64
    ensures { result ≡ request_due request (first_time queue.now) }
{
    match request {
        Request::Tar(time) => time,
        Request::Ner(_) => request.due(queue.first_time()),
    }
}

fn sooner_of(best: Option<(u64, u8)>, pair: (u64, u8)) -> (u64, u8)
    ensures { result ≡ sooner_pair best pair }
{
    match best {
        None => pair,
        Some(old) => {
            if pair.0 < old.0 || (pair.0 == old.0 && pair.1 < old.1) {
                pair
            } else {
                old
            }
        }
    }
}

/// The least pair of a due time and a federate below the end.
pub fn next_of(end: u64, desks: &[Desk]) -> Option<(u64, u8)>
    requires { length desks.now ≤ 16 }
    ensures { result ≡ least_pair None (waiting_at end 0 desks.now) }
{
    let mut best = None;
    for (i, desk) in desks.iter().enumerate() {
        if desk.now < end {
            let time = due(desk.request, &desk.queue);
            best = Some(sooner_of(best, (time, i as u8)));
        }
    }
    best
}
