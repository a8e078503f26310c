//! The simulation up to a time.

ghost use Rattle.std.specs.Prelude.{◌≡◌, ◌<◌, ◌≤◌, [], Some, None, find, OnOk, length};
ghost use Rattle.kit_rules.specs.Simulation.{world_at_start, is_spent, lines_of, least_pair};
ghost use Rattle.kit_oracle.specs.Desks.{desks_of, waiting_at};
ghost use Rattle.kit_oracle.specs.Ends.{IfSpent};
ghost use Rattle.kit_cut.specs.Cuts.{world_by, spender_by, due_by};

use kit_base::{Line, Message};
use kit_oracle::{Desk, OracleEnd, grant, next_of};
use kit_rules::Federation;

/// The least pair of a due time and a federate below the end, if it is due by this time.
fn next_by(end: u64, time: u64, desks: &[Desk]) -> Option<(u64, u8)>
    requires { length desks.now ≤ 16 }
    ensures { result ≡ due_by time (least_pair None (waiting_at end 0 desks.now)) }
{
    match next_of(end, desks) {
        Some(pair) if pair.0 <= time => Some(pair),
        _ => None,
    }
}

/// Grants the least pair again and again, until none is due by this time; `made` is a place for
/// messages, empty before and after.
pub(crate) fn run_upto(
    federation: &Federation,
    time: u64,
    desks: &mut Vec<Desk>,
    made: &mut Vec<Message>,
    lines: &mut Vec<Line>,
) -> Result<(), OracleEnd>
    requires desks { desks.old.items ≡ desks_of federation.now (world_at_start federation.now) }
    requires made { made.old.items ≡ [] }
    requires lines { lines.old.items ≡ [] }
    requires none { find is_spent (world_at_start federation.now).messages ≡ None }
    ensures desks { OnOk result
        (desks.new.items ≡ desks_of federation.now (world_by federation.now time)) }
    ensures lines { OnOk result
        (lines.new.items ≡ lines_of (world_by federation.now time).blocks) }
    ensures none { OnOk result (find is_spent (world_by federation.now time).messages ≡ None) }
    ensures spent { IfSpent result (λ i. spender_by federation.now time ≡ Some i) }
    ensures within { IfSpent result (λ i. i < length federation.now.federates) }
{
    let end = federation.end();
    let most = federation.count() as u64 * end;
    for _turn in 0..most {
        match next_by(end, time, desks) {
            None => return Ok(()),
            Some(pair) => {
                grant(federation, pair, desks, made, lines)?;
                lines.push(Line::Grant {
                    time: pair.0,
                    federate: pair.1,
                })?;
                made.clear();
            }
        }
    }
    Ok(())
}
