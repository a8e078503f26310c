//! The summary of what nodes report.

ghost use Rattle.std.specs.Prelude.{◌≡◌, ◌<◌, IfOk, length};
ghost use Rattle.kit_model.specs.Journals.{lines_told};
ghost use Rattle.kit_replay.specs.Parts.{AreSimulated, AreToldParts};
ghost use Rattle.kit_replay.specs.Reports.{AreWholeParts};
ghost use Rattle.kit_report.specs.Summary.{simulation_summary};

use kit_base::{History, Part};
use kit_node::NodeReport;
use kit_replay::whole_parts_merge;
use kit_report::{merge, summary};
use kit_rules::Federation;
use std::alloc::{AllocError, Global};

/// The summary of the federation of a generator's number, from what the nodes report of whole runs.
pub(crate) fn histories_summary(
    alloc: Global,
    number: u64,
    federation: &Federation,
    nodes: &[NodeReport],
) -> Result<Vec<u8>, AllocError>
    requires { AreWholeParts federation.now nodes.now }
    ensures { IfOk result (λ text. text.items ≡ simulation_summary number federation.now) }
{
    let history = history_of(alloc, federation, nodes)?;
    summary(alloc, number, federation, &history)
}

/// The history of all federates, from what the nodes report of whole runs.
fn history_of(
    alloc: Global,
    federation: &Federation,
    nodes: &[NodeReport],
) -> Result<History, AllocError>
    requires { AreWholeParts federation.now nodes.now }
    ensures simulated { IfOk result
        (λ history. AreSimulated federation.now history.lines history.vars) }
    ensures vars { IfOk result
        (λ history. length history.vars ≡ length federation.now.federates) }
{
    federation.keeps_its_limits();
    whole_parts_merge();
    let parts = parts_of(alloc, nodes)?;
    merge(alloc, &parts)
}

/// What nodes report of their federates, each as a part of a history.
fn parts_of(alloc: Global, nodes: &[NodeReport]) -> Result<Vec<Part>, AllocError>
    requires { length nodes.now < 256 }
    ensures { IfOk result (λ parts. AreToldParts nodes.now parts.items) }
{
    let mut parts = Vec::with_capacity(alloc, nodes.len())?;
    for (federate, node) in nodes.iter().enumerate() {
        parts.push(node.journal.part(alloc, federate as u8, node.vars)?)?;
    }
    Ok(parts)
}
