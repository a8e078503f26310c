ghost use Rattle.std.specs.Prelude.{◌≡◌, ◌*◌, ◌≤◌, ◌<◌, [], length, map};
ghost use Rattle.std.specs.Prelude.{find, Some, None, OnOk, IfOk, All};
ghost use Rattle.kit_rules.specs.Federation.{IsFederation};
ghost use Rattle.kit_rules.specs.Fits.{LineFits};
ghost use Rattle.kit_rules.specs.Need.{needs_of};
ghost use Rattle.kit_rules.specs.Simulation.{world_at_start, simulation, spender};
ghost use Rattle.kit_rules.specs.Simulation.{is_spent, lines_of, closing_vars};
ghost use Rattle.kit_oracle.specs.Desks.{desks_of};
ghost use Rattle.kit_oracle.specs.Ends.{IfSpent};

use crate::OracleEnd;
use crate::desk::{Desk, next_of};
use crate::grants::grant;
use crate::needs::Needs;
use crate::observer::Observer;
use crate::opening::open_all;
use kit_base::{History, Items, Message};
use kit_rules::Federation;
use std::alloc::{AllocError, Global};

/// Grants the least pair again and again, until no federate stands below the end; `made` is a
/// place for messages, empty before and after.
fn run_all<O: Observer>(
    federation: &Federation,
    desks: &mut Vec<Desk>,
    made: &mut Vec<Message>,
    observer: &mut O,
) -> Result<(), OracleEnd>
    requires desks { desks.old.items ≡ desks_of federation.now (world_at_start federation.now) }
    requires made { made.old.items ≡ [] }
    requires shows { O.shows federation.now 0 [] observer.old }
    requires none { find is_spent (world_at_start federation.now).messages ≡ None }
    ensures desks { OnOk result
        (desks.new.items ≡ desks_of federation.now (simulation federation.now)) }
    ensures shows { OnOk result
        (O.shows federation.now (length federation.now.federates * federation.now.end)
        (lines_of (simulation federation.now).blocks) observer.new) }
    ensures none { OnOk result (find is_spent (simulation federation.now).messages ≡ None) }
    ensures spent { IfSpent result (λ i. spender federation.now ≡ Some i) }
{
    let end = federation.end();
    let most = federation.count() as u64 * end;
    for _turn in 0..most {
        match next_of(end, desks) {
            None => return Ok(()),
            Some(pair) => {
                grant(federation, pair, desks, made, observer)?;
                observer.grant(federation, pair, made)?;
                made.clear();
            }
        }
    }
    Ok(())
}

/// The variables of the federates on these desks.
pub fn vars_of(alloc: Global, desks: &[Desk]) -> Result<Items<[u32; 8]>, AllocError>
    ensures { IfOk result (λ vars. vars ≡ map (λ (d : _). d.state.vars) desks.now) }
{
    let mut vars = Items::new(alloc);
    for desk in desks {
        vars.push(desk.state.vars())?;
    }
    Ok(vars)
}

/// Simulates a federation to the end, as [`simulate`] does, and tells an observer of each delivery
/// and each grant. It gives the variables' closing values, federate by federate.
// Compiled alone, the loop is as fast whatever else its caller does; so is that of `need`.
#[inline(never)]
pub fn observe<O: Observer>(
    alloc: Global,
    federation: &Federation,
    observer: &mut O,
) -> Result<Items<[u32; 8]>, OracleEnd>
    requires { O.shows federation.now 0 [] observer.old }
    ensures shows { OnOk result
        (O.shows federation.now (length federation.now.federates * federation.now.end)
        (lines_of (simulation federation.now).blocks) observer.new) }
    ensures vars { IfOk result (λ vars. vars ≡ closing_vars (simulation federation.now)) }
    ensures none { OnOk result (spender federation.now ≡ None) }
    ensures spent { IfSpent result (λ i. spender federation.now ≡ Some i) }
    ensures within { IfSpent result (λ i. i < length federation.now.federates) }
    ensures each { IfOk result (λ vars. length vars ≡ length federation.now.federates) }
    ensures sound { IsFederation federation.now }
{
    let mut made = Vec::new(alloc);
    let mut desks = open_all(alloc, federation, &mut made)?;
    run_all(federation, &mut desks, &mut made, observer)?;
    let vars = vars_of(alloc, &desks)?;
    Ok(vars)
}

/// The sequential simulation of a federation, to the end.
///
/// As long as a federate stands below the end, the one whose next grant is due first is granted
/// it, with the messages that are due then; of several the first in the order of the federates.
/// It ends with `SendsSpent` where a federate takes number 16,385, and names the first to do so.
pub fn simulate(alloc: Global, federation: &Federation) -> Result<History, OracleEnd>
    ensures lines { IfOk result (λ h. h.lines ≡ lines_of (simulation federation.now).blocks) }
    ensures vars { IfOk result (λ h. h.vars ≡ closing_vars (simulation federation.now)) }
    ensures none { OnOk result (spender federation.now ≡ None) }
    ensures spent { IfSpent result (λ i. spender federation.now ≡ Some i) }
    ensures within { IfSpent result (λ i. i < length federation.now.federates) }

    // What the text asks of a history.
    ensures fits { IfOk result (λ h. All (LineFits federation.now) h.lines) }
    ensures each { IfOk result (λ h. length h.vars ≡ length federation.now.federates) }
{
    let mut lines = Vec::new(alloc);
    let vars = observe(alloc, federation, &mut lines)?;
    Ok(History {
        lines: Items::from_vec(lines),
        vars,
    })
}

/// How many buffers each federate needs: the most of its transported messages, Retractions among
/// them, that are later than its time, at the start and after its grants.
///
/// It ends as [`simulate`] does, and makes no lines.
#[inline(never)]
pub fn need(alloc: Global, federation: &Federation) -> Result<Items<u16>, OracleEnd>
    ensures needs { IfOk result (λ needs. needs ≡ needs_of federation.now) }
    ensures none { OnOk result (spender federation.now ≡ None) }
    ensures spent { IfSpent result (λ i. spender federation.now ≡ Some i) }
    ensures within { IfSpent result (λ i. i < length federation.now.federates) }

    // What the text of the needs asks.
    ensures each { IfOk result (λ needs. length needs ≡ length federation.now.federates) }
{
    let mut made = Vec::new(alloc);
    let mut desks = open_all(alloc, federation, &mut made)?;
    let mut needs = Needs::of(alloc, federation, &desks)?;
    run_all(federation, &mut desks, &mut made, &mut needs)?;
    Ok(needs.most())
}
