//! Chores that workers share, each worked by turns, some of which are idle.
ghost use Rattle.std.specs.Prelude.{◌≡◌, ◌≤◌, ◌<◌, length, map, IfOk, ◌==◌};
ghost use Rattle.kit_deal.specs.Dealings.{AllHaveEnded, AreAll, all_parts};
ghost use Rattle.std.specs.Prelude.{All};

use crate::{Activity, Deal, Gate, Shop, Table, deal};
use std::alloc::{AllocError, Global};
use std::marker::{Brand, PhantomData};
use std::sync::Wait;
use std::test::Fail;
use std::thread::Threads;

/// Something to be done in so many turns, half of which are idle.
#[derive(Drop)]
struct Chore {
    number: u8,
    left: u32,
    waits: bool,
}

/// The numbers that are dealt. Each call picks them.
trait Naming {
    ghost use Rattle.std.specs.Prelude.{ℕ, List};

    ghost named: { List ℕ };
}

impl Naming for Brand {
    ghost use Rattle.std.specs.Prelude.{[]};

    ghost named = { [] };
}

struct Chores<J> {
    of: PhantomData<J>,
}

impl<J: Naming> Deal for Chores<J> {
    ghost use Rattle.std.specs.Prelude.{⊤};

    type Item = Chore;

    ghost number = { λ c. c.number };

    ghost all = { J.named };

    ghost Fits = { λ c. ⊤ };

    ghost has_ended = { λ c. c.left == 0 };
}

struct Yard;

impl<J: Naming> Shop<Chores<J>> for Yard {
    fn work<G: Gate>(&self, gate: &mut G, item: Chore) -> (Chore, Activity) {
        gate.pass(item.number);
        let Chore {
            number,
            left,
            waits,
        } = item;
        if waits {
            let item = Chore {
                number,
                left,
                waits: false,
            };
            return (item, Activity::Idle);
        }
        let item = Chore {
            number,
            left: left - 1,
            waits: true,
        };
        let activity = match left {
            1 => Activity::Ended,
            _ => Activity::Worked,
        };
        (item, activity)
    }
}

/// How many turns a worker gave.
#[derive(Clone, Copy)]
struct Turns {
    count: u64,
}

impl Gate for Turns {
    fn pass(&mut self, _: u8) {
        self.count = self.count.saturating_add(1);
    }

    fn step(&self, _: u8) {}
}

fn do_named<J: Naming + Sync, G: Gate + Send, R: Threads + Wait + Sync>(
    rt: &R,
    alloc: Global,
    gates: &mut [G],
    chores: Vec<Chore>,
) -> Result<Vec<Chore>, AllocError>
    requires some { 0 < length chores.items }
    requires many { length chores.items ≡ length J.named }
    requires named { AreAll (λ c. c.number) J.named chores.items }
    requires undone { All (λ c. 0 < c.left) chores.items }
    requires gates { length gates.old ≤ all_parts }
    ensures done { IfOk result (λ r. AllHaveEnded (λ c. c.left == 0) r.items) }
    ensures once { IfOk result (λ r. AreAll (λ c. c.number) J.named r.items) }
{
    let table = Table::<Chores<J>>::new(alloc, chores.len())?;
    Ok(deal::<Chores<J>, Yard, G, R>(rt, alloc, table, &Yard, gates, chores))
}

/// Does all chores, by as many workers as there are gates. Each comes back once, done.
fn do_all<G: Gate + Send, R: Threads + Wait + Sync>(
    rt: &R,
    alloc: Global,
    gates: &mut [G],
    chores: Vec<Chore>,
) -> Result<Vec<Chore>, AllocError>
    requires some { 0 < length chores.items }
    requires undone { All (λ c. 0 < c.left) chores.items }
    requires gates { length gates.old ≤ all_parts }
    ensures done { IfOk result (λ r. AllHaveEnded (λ c. c.left == 0) r.items) }
    ensures once { IfOk result (λ r. AreAll (λ c. c.number)
        (map (λ c. c.number) chores.items) r.items) }
{
    do_named::<Brand, G, R>(rt, alloc, gates, chores)
}

/// The numbers of chores, least first.
fn numbers_of(alloc: Global, chores: &[Chore]) -> Result<Vec<u8>, AllocError> {
    let mut numbers = Vec::new(alloc);
    for chore in chores {
        numbers.push(chore.number)?;
    }
    numbers.sort_unstable();
    Ok(numbers)
}

/// The chores of these numbers, of so many turns each.
fn chores_of(alloc: Global, numbers: &[u8], turns: u32) -> Result<Vec<Chore>, AllocError>
    requires { 0 < turns }
    ensures count { IfOk result (λ r. length r.items ≡ length numbers.now) }
    ensures undone { IfOk result (λ r. All (λ c. 0 < c.left) r.items) }
{
    let mut chores = Vec::new(alloc);
    for number in numbers {
        chores.push(Chore {
            number: *number,
            left: turns,
            waits: true,
        })?;
    }
    Ok(chores)
}

#[test]
fn chores_come_back_once(rt: HostRuntime) -> Result<(), Fail> {
    let alloc = rt.alloc();
    let numbers = [3, 5, 8, 13, 21, 34, 55, 89, 144, 200, 201, 202];
    for workers in 2..=16 {
        let chores = chores_of(alloc, &numbers, 30)?;
        let mut gates = [Turns { count: 0 }; 16];
        let back = do_all(&rt, alloc, &mut gates[..workers], chores)?;
        assert_eq!(rt; numbers_of(alloc, &back)?.as_slice(), numbers.as_slice());
        assert!(rt; back.iter().all(|chore| chore.left == 0));
        let most = numbers.len() as u64 * 60;
        assert!(rt; gates.iter().all(|turns| turns.count <= most));
    }
    Ok(())
}
