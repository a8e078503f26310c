//! The journals of nodes are merged by grant time and federate, and each line is written as it
//! comes: no part and no history stands between.

ghost use Rattle.std.specs.Prelude.{◌≡◌, ◌≢◌, ◌<◌, ◌≤◌, ◌++◌, None, IfOk, OnOk, length, map};
ghost use Rattle.std.specs.List.{AllByRecursion};
ghost use Rattle.kit_rules.specs.Fits.{LineFits};
ghost use Rattle.kit_rules.specs.Text.{closings_text, simulation_text};
ghost use Rattle.kit_model.specs.Journals.{line_told, lines_told};
ghost use Rattle.kit_replay.specs.Reports.{AreWholeParts};
ghost use Rattle.kit_report.specs.Merges.{behind_grant, through_grant};
ghost use Rattle.kit_telling.specs.Tellings.{AreTold, first_place, first_time, is_grant};
ghost use Rattle.kit_telling.specs.Tellings.{last_entries, lines_text, place_before, time_told};
ghost use Rattle.kit_telling.specs.Tellings.{vars_reported};

use kit_base::Line;
use kit_model::JournalEntry;
use kit_node::NodeReport;
use kit_replay::whole_parts_merge;
use kit_report::{Place, push_closing, push_line, soonest};
use kit_rules::Federation;
use std::alloc::{AllocError, Global};

/// The room that is made at once for a line, in bytes; the text grows past it where lines are
/// longer.
const LINE_ROOM: usize = 48;

/// Whether an entry tells a line of a history.
fn is_told(entry: &JournalEntry) -> bool {
    match entry {
        JournalEntry::Received { .. } => false,
        JournalEntry::Delivered { .. } | JournalEntry::Granted { .. } => true,
    }
}

/// The room for the lines that nodes report, in bytes.
fn room_for(nodes: &[NodeReport]) -> usize {
    let mut lines: usize = 0;
    for node in nodes {
        let told = node
            .journal
            .entries()
            .iter()
            .filter(|entry| is_told(entry))
            .count();
        lines = lines.saturating_add(told);
    }
    lines.saturating_mul(LINE_ROOM)
}

/// The time with which the line of an entry was granted, if it tells one.
fn time_of(entry: &JournalEntry) -> Option<u64>
    ensures { result ≡ time_told entry.now }
{
    match entry {
        JournalEntry::Received { .. } => None,
        JournalEntry::Delivered { granted, .. } => Some(*granted as u64),
        JournalEntry::Granted { time } => Some(*time),
    }
}

/// The time of the first line that the entries tell.
fn first_time(entries: &[JournalEntry]) -> Option<u64>
    ensures { result ≡ first_time entries.now }
{
    for entry in entries {
        if let Some(time) = time_of(entry) {
            return Some(time);
        }
    }
    None
}

/// The place before these entries, which are the last of a journal.
fn place_before(entries: &[JournalEntry]) -> Place
    ensures { result ≡ place_before entries.now }
{
    Place {
        left: entries.len(),
        time: first_time(entries),
    }
}

/// The place in each journal at first.
fn first_places(alloc: Global, nodes: &[NodeReport]) -> Result<Vec<Place>, AllocError>
    ensures { IfOk result (λ places. places.items ≡ map first_place nodes.now) }
{
    let mut places = Vec::with_capacity(alloc, nodes.len())?;
    for node in nodes {
        places.push(place_before(node.journal.entries()))?;
    }
    Ok(places)
}

/// Writes the line that an entry tells of a federate, if it tells one, and says whether that is a
/// grant.
fn tell_entry(
    text: &mut Vec<u8>,
    federation: &Federation,
    federate: u8,
    entry: &JournalEntry,
) -> Result<bool, AllocError>
    requires { AllByRecursion (LineFits federation.now) (line_told federate entry.now) }
    ensures told { OnOk result (text.new.items ≡
        text.old.items ++ lines_text federation.now (line_told federate entry.now)) }
    ensures grant { IfOk result (λ granted. granted ≡ is_grant entry.now) }
{
    match *entry {
        JournalEntry::Received { .. } => Ok(false),
        JournalEntry::Delivered { granted, message } => {
            let line = Line::Deliver {
                granted: granted as u64,
                federate,
                message,
            };
            push_line(text, federation, &line)?;
            Ok(false)
        }
        JournalEntry::Granted { time } => {
            push_line(text, federation, &Line::Grant { time, federate })?;
            Ok(true)
        }
    }
}

/// Writes the lines that the entries tell of a federate up to its next grant, and gives the place
/// behind it.
fn tell_block(
    text: &mut Vec<u8>,
    federation: &Federation,
    federate: u8,
    entries: &[JournalEntry],
) -> Result<Place, AllocError>
    requires { AllByRecursion (LineFits federation.now) (lines_told federate entries.now) }
    ensures told { OnOk result (text.new.items ≡ text.old.items
        ++ lines_text federation.now (through_grant (lines_told federate entries.now))) }
    ensures rest { IfOk result (λ place. lines_told federate (last_entries place.left entries.now)
        ≡ behind_grant (lines_told federate entries.now)) }
    ensures time { IfOk result (λ place.
        place.time ≡ first_time (last_entries place.left entries.now)) }
    ensures within { IfOk result (λ place. place.left ≤ length entries.now) }
    ensures less { IfOk result (λ place. first_time entries.now ≢ None
        → place.left < length entries.now) }
{
    for (at, entry) in entries.iter().enumerate() {
        if tell_entry(text, federation, federate, entry)? {
            return Ok(place_before(&entries[at + 1..]));
        }
    }
    Ok(place_before(&[]))
}

/// The last of the entries, where so many of them are left.
fn last_entries(entries: &[JournalEntry], left: usize) -> &[JournalEntry]
    ensures { result.now ≡ last_entries left entries.now }
{
    &entries[entries.len().saturating_sub(left)..]
}

/// Writes the lines of all nodes, block by block.
fn tell_lines(
    alloc: Global,
    text: &mut Vec<u8>,
    federation: &Federation,
    nodes: &[NodeReport],
) -> Result<(), AllocError>
    requires { AreWholeParts federation.now nodes.now }
    ensures { OnOk result (AreTold federation.now nodes.now text.old.items text.new.items) }
{
    federation.keeps_its_limits();
    let mut places = first_places(alloc, nodes)?;
    while let Some(at) = soonest(&places) {
        let entries = last_entries(nodes[at].journal.entries(), places[at].left);
        places[at] = tell_block(text, federation, at as u8, entries)?;
    }
    Ok(())
}

/// Writes the closing lines of all nodes.
fn tell_closings(
    text: &mut Vec<u8>,
    federation: &Federation,
    nodes: &[NodeReport],
) -> Result<(), AllocError>
    requires { length nodes.now ≡ length federation.now.federates }
    ensures { OnOk result (text.new.items ≡ text.old.items
        ++ closings_text federation.now.federates (map vars_reported nodes.now)) }
{
    for (at, federate) in federation.federates().iter().enumerate() {
        push_closing(text, federate, &nodes[at].vars)?;
    }
    Ok(())
}

/// The text of what nodes did that have made their whole parts, in one buffer: that of the
/// federation's sequential simulation. It fails only for want of memory.
pub fn histories_text(
    alloc: Global,
    federation: &Federation,
    nodes: &[NodeReport],
) -> Result<Vec<u8>, AllocError>
    requires { AreWholeParts federation.now nodes.now }
    ensures { IfOk result (λ text. text.items ≡ simulation_text federation.now) }
{
    federation.keeps_its_limits();
    whole_parts_merge();
    let mut text = Vec::with_capacity(alloc, room_for(nodes))?;
    tell_lines(alloc, &mut text, federation, nodes)?;
    tell_closings(&mut text, federation, nodes)?;
    Ok(text)
}
