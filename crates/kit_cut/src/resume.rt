//! The simulation that goes on from a cut.

ghost use Rattle.std.specs.Prelude.{◌≡◌, ◌<◌, ◌≤◌, [], ◌∷◌, ◌++◌, Some, None};
ghost use Rattle.std.specs.Prelude.{find, length, map, OnOk, IfOk, All};
ghost use Rattle.kit_base.specs.declared.history.Line.TheVariants as line;
ghost use Rattle.kit_rules.specs.Fits.{LineFits};
ghost use Rattle.kit_rules.specs.Simulation.{is_spent, lines_of, closing_vars};
ghost use Rattle.kit_oracle.specs.Desks.{desk_at, desk_after_turn_at};
ghost use Rattle.kit_oracle.specs.Ends.{IfSpent};
ghost use Rattle.kit_oracle.specs.Pending.{front_until};
ghost use Rattle.kit_cut.specs.ValidCuts.{IsValidCut};
ghost use Rattle.kit_cut.specs.Resuming.{world_restored, resumed, resumed_spender};
ghost use Rattle.kit_cut.specs.SinceCut.{AreBelowNext, desks_of_world_since};
ghost use Rattle.kit_cut.specs.SinceCut.{desks_after_grant_since};

use crate::Cut;
use crate::postings::post_all;
use crate::restoring::restored_desks;
use kit_base::{History, Items, Line, Message};
use kit_oracle::{Desk, OracleEnd, end_of, next_of, turn, vars_of};
use kit_rules::Federation;
use std::alloc::Global;

/// A grant with its messages posted; `made` is a place for messages, empty before and after.
fn grant_since(
    federation: &Federation,
    cut: &Cut,
    pair: (u64, u8),
    desks: &mut Vec<Desk>,
    made: &mut Vec<Message>,
    lines: &mut Vec<Line>,
) -> Result<(), OracleEnd>
    requires federate { pair.1 < length federation.now.federates }
    requires desk { pair.1 < length desks.old.items }
    requires few { length desks.old.items ≤ 16 }
    requires each { length cut.now.federates ≡ length desks.old.items }
    requires time { pair.0 ≤ federation.now.end }
    requires made { made.old.items ≡ [] }
    requires below { AreBelowNext cut.now }
    ensures desks { OnOk result (desks.new.items ≡
        desks_after_grant_since federation.now cut.now pair desks.old.items) }
    ensures made { OnOk result (made.new.items ≡ []) }
    ensures lines { OnOk result (lines.new.items ≡ (lines.old.items
        ++ map (line.Deliver pair.0 pair.1)
        (front_until pair.0 (desk_at desks.old.items pair.1).queue))
        ++ line.Grant pair.0 pair.1 ∷ []) }
    ensures spent { IfSpent result (λ i. i ≡ pair.1) }
    ensures past { IfSpent result (λ _. 16385 <
        (desk_after_turn_at federation.now pair desks.old.items).state.next) }
    ensures room { OnOk result
        ((desk_after_turn_at federation.now pair desks.old.items).state.next ≤ 16385) }
{
    let (time, federate) = pair;
    let desk = &mut desks[federate as usize];
    match turn(federation, federate, time, desk, made, lines) {
        Ok(()) => {}
        Err(end) => return Err(end_of(end, federate)),
    }
    post_all(federation, cut, made, desks)?;
    made.clear();
    lines.push(Line::Grant { time, federate })?;
    Ok(())
}

/// Grants the least pair again and again, until no federate stands below the end.
fn run_on(
    federation: &Federation,
    cut: &Cut,
    desks: &mut Vec<Desk>,
    made: &mut Vec<Message>,
    lines: &mut Vec<Line>,
) -> Result<(), OracleEnd>
    requires valid { IsValidCut federation.now cut.now }
    requires desks { desks.old.items ≡
        desks_of_world_since federation.now cut.now (world_restored cut.now) }
    requires made { made.old.items ≡ [] }
    requires lines { lines.old.items ≡ [] }
    ensures desks { OnOk result (desks.new.items ≡
        desks_of_world_since federation.now cut.now (resumed federation.now cut.now)) }
    ensures lines { OnOk result
        (lines.new.items ≡ lines_of (resumed federation.now cut.now).blocks) }
    ensures none { OnOk result
        (find is_spent (resumed federation.now cut.now).messages ≡ None) }
    ensures fits { OnOk result (All (LineFits federation.now) lines.new.items) }
    ensures each { OnOk result (length desks.new.items ≡ length federation.now.federates) }
    ensures spent { IfSpent result (λ i. resumed_spender federation.now cut.now ≡ Some i) }
    ensures within { IfSpent result (λ i. i < length federation.now.federates) }
{
    let end = federation.end();
    let most = federation.count() as u64 * end;
    for _turn in 0..most {
        match next_of(end, desks) {
            None => return Ok(()),
            Some(pair) => grant_since(federation, cut, pair, desks, made, lines)?,
        }
    }
    Ok(())
}

/// The simulation that goes on from a valid cut, to the end: the lines since the cut, and the
/// variables' closing values.
///
/// It is the sequential simulation begun in the state that the cut keeps. What is pending at the cut
/// is all that may still reach a federate of what was sent before; a Retraction takes out what its
/// sender and number name of it, whatever the time. It ends with `SendsSpent` where a federate
/// takes number 16,385, and names the first to do so since the cut.
// Compiled alone, the loop is as fast whatever else its caller does.
#[inline(never)]
pub fn resume_from(alloc: Global, federation: &Federation, cut: &Cut) -> Result<History, OracleEnd>
    requires { IsValidCut federation.now cut.now }
    ensures lines { IfOk result (λ h.
        h.lines ≡ lines_of (resumed federation.now cut.now).blocks) }
    ensures vars { IfOk result (λ h. h.vars ≡ closing_vars (resumed federation.now cut.now)) }
    ensures none { OnOk result (resumed_spender federation.now cut.now ≡ None) }
    ensures spent { IfSpent result (λ i. resumed_spender federation.now cut.now ≡ Some i) }
    ensures within { IfSpent result (λ i. i < length federation.now.federates) }

    // What the text asks of a history.
    ensures fits { IfOk result (λ h. All (LineFits federation.now) h.lines) }
    ensures each { IfOk result (λ h. length h.vars ≡ length federation.now.federates) }
{
    let mut made = Vec::new(alloc);
    let mut lines = Vec::new(alloc);
    let mut desks = restored_desks(alloc, federation, cut)?;
    run_on(federation, cut, &mut desks, &mut made, &mut lines)?;
    let vars = vars_of(alloc, &desks)?;
    Ok(History {
        lines: Items::from_vec(lines),
        vars,
    })
}
