//! A run by workers that share one lock.
ghost use Rattle.std.specs.Prelude.{◌≡◌, ◌≤◌, ◌<◌, length};
ghost use Rattle.kit_runner.specs.Locks.{IsLocked};
ghost use Rattle.kit_runner.specs.LockStages.{IsStage};

mod rota;

use crate::Gate;
use crate::stage::Stage;
use kit_deal::Activity;
use kit_ground::PlainFloor;
use kit_lbts::Lbts;
use kit_node::{End, NodeReport};
use kit_rules::Federation;
use rota::Rota;
use std::alloc::Global;
use std::marker::{Brand, Model, PhantomData};
use std::sync::{Mutex, Wait};
use std::thread::{Threads, for_each_mut};

/// What a run over one lock left.
#[derive(Drop)]
pub struct Locked {
    pub end: End,
    /// The reports of the nodes, in the order of the federates.
    pub nodes: Vec<NodeReport>,
    /// The floor at the end.
    pub floor: Option<PlainFloor<Lbts>>,
}

/// The federation of a run. Each run picks it.
trait Staging {
    ghost use Rattle.kit_rules.specs.Parts.{Parts};

    ghost federation: { Parts };
}

impl Staging for Brand {
    ghost use Rattle.kit_runner.specs.LockStages.{no_federation};

    ghost federation = { no_federation };
}

/// The value of the lock: the floor with all nodes. They belong together whenever the lock is free.
#[derive(Drop)]
struct Whole<J: Staging> {
    stage: Stage,
    run: PhantomData<J>,
}

impl<J: Staging> Model for Whole<J> {
    ghost use Rattle.std.specs.Prelude.{⊤};
    ghost use Rattle.kit_runner.specs.LockStages.{IsStage};

    ghost Value = { ⊤ };

    ghost view = { λ w. tt };

    ghost invariant = { λ w. IsStage J.federation w.stage };
}

impl<J: Staging> Whole<J> {
    fn new(stage: Stage) -> Whole<J>
        requires { IsStage J.federation stage }
    {
        Whole {
            stage,
            run: PhantomData,
        }
    }

    /// Gives a federate a turn, where its node goes on.
    fn give_turn(&mut self, federation: &Federation, federate: u8) -> Activity
        requires { J.federation ≡ federation.now }
    {
        self.stage.give_turn(federation, federate)
    }

    fn into_stage(self) -> Stage
        ensures { IsStage J.federation result }
    {
        self.stage
    }
}

/// One worker of several: it gives turns to its federates, until their nodes have ended or there
/// was nothing to do for long. While it calls its gate it holds no lock.
fn serve<J: Staging, G: Gate, R: Wait>(
    rt: &R,
    lock: &Mutex<Whole<J>>,
    federation: &Federation,
    rota: Rota,
    gate: &mut G,
)
    requires { J.federation ≡ federation.now }
{
    let mut rota = rota;
    for _ in rt.forever() {
        let Some(federate) = rota.next_federate() else {
            return;
        };
        gate.pass(federate);
        let activity = lock.lock(rt).give_turn(federation, federate);
        rota.after(federate, activity);
    }
    unreachable!()
}

/// A run whose federation is picked.
fn lock_named<J, G, R>(rt: &R, federation: &Federation, gates: &mut [G], stage: Stage) -> Locked
where
    J: Staging + Send + Sync,
    G: Gate + Send,
    R: Threads + Wait + Sync,
    requires stage { IsStage federation.now stage }
    requires name { J.federation ≡ federation.now }
    requires some { 1 ≤ length gates.old }
    requires few { length gates.old ≤ 16 }
    ensures { IsLocked federation.now result.end result.nodes.items result.floor }
{
    let lock = Mutex::new(Whole::<J>::new(stage));
    let federates = federation.count();
    let workers = gates.len().min(usize::from(federates));
    for_each_mut(
        rt,
        &mut gates[..workers],
        workers,
        &|own, gate|
            requires { (J.federation ≡ federation.now) × (0 < workers) × (federates ≤ 16) }
        {
            serve::<J, G, R>(
                rt,
                &lock,
                federation,
                Rota::new(own, workers, federates),
                gate,
            )
        },
    );
    let mut stage = lock.into_inner().into_stage();
    stage.finish(rt, federation);
    stage.close()
}

/// Runs a federation by workers that share one lock. There are as many workers as gates, and not
/// more than federates, each in a thread of its own where one can be started. A worker serves the
/// federates whose number modulo the number of workers is its own.
///
/// The reports and the floor are missing only where there was no memory for the floor and the
/// nodes.
pub fn lock_run<G: Gate + Send, R: Threads + Wait + Sync>(
    rt: &R,
    alloc: Global,
    federation: &Federation,
    gates: &mut [G],
) -> Locked
    requires some { 1 ≤ length gates.old }
    requires few { length gates.old ≤ 16 }
    ensures { IsLocked federation.now result.end result.nodes.items result.floor }
{
    let Ok(stage) = Stage::new(alloc, federation) else {
        return Locked {
            end: End::NoMemory,
            nodes: Vec::new(alloc),
            floor: None,
        };
    };
    lock_named::<Brand, G, R>(rt, federation, gates, stage)
}

#[cfg(test)]
mod tests;
