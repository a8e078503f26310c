//! The merge of the federates' parts into one history.

ghost use Rattle.std.specs.Prelude.{◌≡◌, ◌≢◌, ◌<◌, ◌≤◌, ◌++◌, List, length, map, IfOk, IfSome};
ghost use Rattle.std.specs.Prelude.{IfNone, OnOk, None};
ghost use Rattle.kit_rules.specs.Merging.{ArePartsOf, IsMerged, vars_in};
ghost use Rattle.kit_rules.specs.Simulation.{Block};
ghost use Rattle.kit_report.specs.Merges.{HaveNoTime, IsSoonest, behind_grant, first_grant_time};
ghost use Rattle.kit_report.specs.Merges.{first_place, grant_time, last_lines, place_in, sooner_of};
ghost use Rattle.kit_report.specs.Merges.{through_grant, time_at};

use kit_base::{History, Items, Line, Part};
use std::alloc::{AllocError, Global};

/// A place in what a federate's part tells.
#[derive(Clone, Copy, Debug)]
pub struct Place {
    /// How much of the part is left.
    pub left: usize,
    /// The time of the first grant that is left, if one is.
    pub time: Option<u64>,
}

/// The time with which a line was granted.
fn granted_at(line: &Line) -> u64
    ensures { result ≡ grant_time line.now }
{
    match line {
        Line::Deliver { granted, .. } => *granted,
        Line::Grant { time, .. } => *time,
    }
}

/// The time of the first of the lines that are left of a part.
fn next_time(part: &Part, left: usize) -> Option<u64>
    ensures { result ≡ first_grant_time (last_lines left part.now.lines) }
{
    let lines = part.lines.as_slice();
    let line = lines.get(lines.len().saturating_sub(left))?;
    Some(granted_at(line))
}

/// The place in a part where so many lines are left.
fn place_in(part: &Part, left: usize) -> Place
    ensures { result ≡ place_in left part.now.lines }
{
    Place {
        left,
        time: next_time(part, left),
    }
}

/// The first of the places with the least time: those in the parts of a merge, in the order of the
/// federates, give that of the part whose block comes next.
pub fn soonest(places: &[Place]) -> Option<usize>
    ensures some { IfSome result (IsSoonest (time_at places.now) (length places.now)) }
    ensures none { IfNone result (HaveNoTime (time_at places.now) (length places.now)) }
{
    let mut best: Option<(u64, usize)> = None;
    for (at, place) in places.iter().enumerate() {
        if let Some(time) = place.time {
            best = sooner(best, time, at);
        }
    }
    let (_, at) = best?;
    Some(at)
}

/// The sooner of a time with its part, and another of a later part.
fn sooner(best: Option<(u64, usize)>, time: u64, at: usize) -> Option<(u64, usize)>
    ensures { result ≡ sooner_of best time at }
{
    match best {
        Some((least, first)) if least <= time => Some((least, first)),
        _ => Some((time, at)),
    }
}

/// Takes the lines that are left of a part up to its next grant, and says how many are left then.
fn take_block(lines: &mut Items<Line>, part: &Part, left: usize) -> Result<usize, AllocError>
    ensures taken { OnOk result (lines.new ≡
        lines.old ++ through_grant (last_lines left part.now.lines)) }
    ensures rest { IfOk result (λ after. last_lines after part.now.lines ≡
        behind_grant (last_lines left part.now.lines)) }
    ensures less { IfOk result (λ after. first_grant_time (last_lines left part.now.lines) ≢ None
        → after < left) }
{
    let from = part.lines.as_slice();
    let mut at = from.len().saturating_sub(left);
    while let Some(line) = from.get(at) {
        lines.push(*line)?;
        at += 1;
        if let Line::Grant { .. } = line {
            return Ok(from.len() - at);
        }
    }
    Ok(0)
}

/// The history of federates by their parts, in the order of the federates: the blocks of all parts,
/// each a grant behind its deliveries, by grant time and then by federate; and the variables of
/// each.
///
/// A part has whole blocks of its own federate, whose times rise strictly; of other lines nothing
/// is said. It fails only for want of memory.
pub fn merge(alloc: Global, parts: &[Part]) -> Result<History, AllocError>
    ensures lines { IfOk result (λ history. (blocks : List (List Block)) →
        ArePartsOf parts.now blocks → IsMerged blocks history.lines) }
    ensures vars { IfOk result (λ history. history.vars ≡ map vars_in parts.now) }
{
    Ok(History {
        lines: merge_lines(alloc, parts)?,
        vars: all_vars(alloc, parts)?,
    })
}

/// The closing variables of each part.
fn all_vars(alloc: Global, parts: &[Part]) -> Result<Items<[u32; 8]>, AllocError>
    ensures { IfOk result (λ vars. vars ≡ map vars_in parts.now) }
{
    let mut vars = Items::new(alloc);
    for part in parts {
        vars.push(part.vars)?;
    }
    Ok(vars)
}

/// The lines of the blocks of all parts, merged.
fn merge_lines(alloc: Global, parts: &[Part]) -> Result<Items<Line>, AllocError>
    ensures { IfOk result (λ lines. (blocks : List (List Block)) →
        ArePartsOf parts.now blocks → IsMerged blocks lines) }
{
    let mut lines = Items::new(alloc);
    let mut places = first_places(alloc, parts)?;
    while let Some(at) = soonest(&places) {
        let left = take_block(&mut lines, &parts[at], places[at].left)?;
        places[at] = place_in(&parts[at], left);
    }
    Ok(lines)
}

/// The place in each part at first.
fn first_places(alloc: Global, parts: &[Part]) -> Result<Vec<Place>, AllocError>
    ensures { IfOk result (λ places. places.items ≡ map first_place parts.now) }
{
    let mut places = Vec::with_capacity(alloc, parts.len())?;
    for part in parts {
        places.push(place_in(part, part.lines.len()))?;
    }
    Ok(places)
}

#[cfg(test)]
mod tests {
    use super::*;
    use std::test::Fail;

    fn grants(alloc: Global, federate: u8, times: &[u64]) -> Result<Part, AllocError> {
        let mut lines = Items::new(alloc);
        for time in times {
            lines.push(Line::Grant {
                time: *time,
                federate,
            })?;
        }
        Ok(Part {
            lines,
            vars: [federate as u32; 8],
        })
    }

    #[test]
    fn merges_by_time_and_then_by_federate(rt: HostRuntime) -> Result<(), Fail> {
        let alloc = rt.alloc();
        let first = grants(alloc, 0, &[3, 9])?;
        let second = grants(alloc, 1, &[2, 3, 9])?;
        let history = merge(alloc, &[first, second])?;
        let grant = |time, federate| Line::Grant { time, federate };
        let lines = [
            grant(2, 1),
            grant(3, 0),
            grant(3, 1),
            grant(9, 0),
            grant(9, 1),
        ];
        assert_eq!(rt; history.lines.as_slice(), lines.as_slice());
        assert_eq!(rt; history.vars.as_slice(), [[0; 8], [1; 8]].as_slice());
        Ok(())
    }
}
