//! One run, with all that is random about it.
ghost use Rattle.std.specs.Prelude.{◌≡◌, ◌≤◌, IfOk, length};

use crate::chance::Chance;
use crate::disturbers::{Disturber, Habit};
use crate::federations::{buffers_by, federation_with};
use crate::judging::is_as_simulated;
use kit_gen::federation_of;
use kit_oracle::{OracleEnd, need};
use kit_rules::{Federation, MOST_BUFFERS};
use kit_runner::run;
use std::alloc::{AllocError, Global};
use std::sync::Wait;
use std::sync::atomic::AtomicU64;
use std::thread::Threads;

/// What a trial showed.
#[derive(Clone, Copy, Debug, PartialEq, Eq)]
pub enum Verdict {
    /// The run came to what the simulation allows.
    AsSimulated,
    /// It came to something else.
    Different,
    /// There was no memory for it.
    NoMemory,
    /// What was made is no federation.
    NoFederation,
}

/// A run of the federation of a seed by so many workers.
#[derive(Clone, Copy, Debug)]
pub struct Trial {
    pub seed: u64,
    pub workers: u8,
    ghost some: { 1 ≤ workers },
    ghost few: { workers ≤ 16 },
}

impl Trial {
    pub fn of(seed: u64) -> Trial {
        Trial {
            seed,
            workers: 1 + (seed % 16) as u8,
        }
    }

    /// Makes the run, of the federation of its seed or of one of those that are given.
    pub fn verdict<R: Threads + Wait + Sync>(
        self,
        rt: &R,
        alloc: Global,
        given: &[Federation],
    ) -> Verdict {
        match self.outcome(rt, alloc, given) {
            Ok(Some(true)) => Verdict::AsSimulated,
            Ok(Some(false)) => Verdict::Different,
            Ok(None) => Verdict::NoFederation,
            Err(AllocError) => Verdict::NoMemory,
        }
    }

    fn outcome<R: Threads + Wait + Sync>(
        self,
        rt: &R,
        alloc: Global,
        given: &[Federation],
    ) -> Result<Option<bool>, AllocError> {
        let mut chance = Chance::new(self.seed);
        let chance = &mut chance;
        if chance.below(8) == 0
            && let Some(federation) = one_of(chance, given)
        {
            return Ok(Some(self.try_out(rt, alloc, chance, federation)?));
        }
        let made = if chance.below(32) == 0 {
            Some(federation_of(alloc, self.seed)?)
        } else {
            federation_by(alloc, chance)?
        };
        match made {
            Some(federation) => Ok(Some(self.try_out(rt, alloc, chance, &federation)?)),
            None => Ok(None),
        }
    }

    /// Runs a federation, and says whether the run came to what the simulation allows.
    fn try_out<R: Threads + Wait + Sync>(
        self,
        rt: &R,
        alloc: Global,
        chance: &mut Chance,
        federation: &Federation,
    ) -> Result<bool, AllocError> {
        let turns = AtomicU64::new(0);
        let mut gates = disturbers(alloc, chance, self.workers, &turns)?;
        let ran = run(rt, alloc, federation, &mut gates[..]);
        is_as_simulated(alloc, federation, &ran)
    }
}

/// One gate for each worker: about half of them have one habit, and the others each its own.
fn disturbers<'a>(
    alloc: Global,
    chance: &mut Chance,
    workers: u8,
    turns: &'a AtomicU64,
) -> Result<Vec<Disturber<'a>>, AllocError>
    ensures { IfOk result (λ gates. length gates.items ≡ workers) }
{
    let mut gates = Vec::with_capacity(alloc, usize::from(workers))?;
    let common = Habit::by(chance);
    for _worker in 0..workers {
        let own = Habit::by(chance);
        let habit = if chance.below(2) == 0 { common } else { own };
        gates.push(Disturber::new(habit, Chance::new(chance.draw()), turns))?;
    }
    Ok(gates)
}

fn one_of<'a>(chance: &mut Chance, given: &'a [Federation]) -> Option<&'a Federation> {
    if given.is_empty() {
        return None;
    }
    given.get(chance.below(given.len() as u64) as usize)
}

/// A federation made at random. Its buffers are as many as are needed, or more, or fewer.
fn federation_by(alloc: Global, chance: &mut Chance) -> Result<Option<Federation>, AllocError> {
    let seed = chance.draw();
    let Some(wide) = federation_with(alloc, seed, MOST_BUFFERS as u16)? else {
        return Ok(None);
    };
    let most = match need(alloc, &wide) {
        Ok(needs) => needs.as_slice().iter().copied().max().unwrap_or(0),
        Err(OracleEnd::SendsSpent { .. }) => return Ok(Some(wide)),
        Err(OracleEnd::NoMemory) => return Err(AllocError),
    };
    federation_with(alloc, seed, buffers_by(chance, most))
}
