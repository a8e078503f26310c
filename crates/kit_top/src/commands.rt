//! What each command does.

ghost use Rattle.std.specs.Prelude.{◌≡◌, ℕ, List, None};
ghost use Rattle.kit_io.specs.Causes.{Rose};
ghost use Rattle.kit_top.specs.Causes.{Causes, IsAnswered, IsCommand, IsEnded, IsFederationCommand};
ghost use Rattle.kit_top.specs.Causes.{IsNoCommand, Told, Completes, OneCause};

use crate::answers::tell_federation;
use crate::input::{read_input, read_plan_input, read_saved_input};
use crate::regions::tell_regions;
use crate::saving::tell_resume;
use crate::writing::tell;
use crate::{Command, Ended, FederationCommand, Status, Word};
use kit_io::{Sink, Source};
use std::alloc::{AllocError, Global};

/// Answers a command on a federation by that of the source's file.
fn answer_on_federation<S: Source, K: Sink>(
    alloc: Global,
    command: &FederationCommand,
    source: &mut S,
    sink: &mut K,
) -> Ended
    ensures told { (words : List (List ℕ)) → IsFederationCommand words command.now
        → IsEnded S.Source words source.old source.new
        (K.holds sink.old) (K.holds sink.new) result }
    ensures fault { result.status ≡ Status.WriteFault
        → Rose (K.faults sink.old) (K.faults sink.new) }
{
    match read_input(alloc, source, sink) {
        Ok(federation) => tell_federation(alloc, command, &federation, sink),
        Err(status) => Ended::empty(alloc, status),
    }
}

/// Answers `regions` by the plan of the source's file.
fn answer_regions<S: Source, K: Sink>(alloc: Global, source: &mut S, sink: &mut K) -> Status
    ensures told { (words : List (List ℕ)) → IsCommand words Command.Regions
        → Told (Causes S.Source words source.old source.new None)
        (K.holds sink.old) (K.holds sink.new) result }
    ensures fault { result ≡ Status.WriteFault → Rose (K.faults sink.old) (K.faults sink.new) }
{
    match read_plan_input(alloc, source, sink) {
        Ok(plan) => tell_regions(alloc, &plan, sink),
        Err(status) => status,
    }
}

/// Answers `resume` by the source's saved file.
fn answer_resume<S: Source, K: Sink>(alloc: Global, source: &mut S, sink: &mut K) -> Status
    ensures told { (words : List (List ℕ)) → IsCommand words Command.Resume
        → Told (Causes S.Source words source.old source.new None)
        (K.holds sink.old) (K.holds sink.new) result }
    ensures fault { result ≡ Status.WriteFault → Rose (K.faults sink.old) (K.faults sink.new) }
{
    match read_saved_input(alloc, source, sink) {
        Ok((federation, cut)) => tell_resume(alloc, &federation, &cut, sink),
        Err(status) => status,
    }
}

/// Answers a command by the source's bytes.
fn answer_command<S: Source, K: Sink>(
    alloc: Global,
    command: &Command,
    source: &mut S,
    sink: &mut K,
) -> Ended
    ensures told { (words : List (List ℕ)) → IsCommand words command.now
        → IsEnded S.Source words source.old source.new
        (K.holds sink.old) (K.holds sink.new) result }
    ensures fault { result.status ≡ Status.WriteFault
        → Rose (K.faults sink.old) (K.faults sink.new) }
{
    match command {
        Command::OnFederation(command) => answer_on_federation(alloc, command, source, sink),
        Command::Regions => Ended::empty(alloc, answer_regions(alloc, source, sink)),
        Command::Resume => Ended::empty(alloc, answer_resume(alloc, source, sink)),
    }
}

/// Answers the words by the source's bytes.
fn answer<S: Source, K: Sink>(alloc: Global, words: &[Word], source: &mut S, sink: &mut K) -> Ended
    ensures told { IsEnded S.Source words.now source.old source.new
        (K.holds sink.old) (K.holds sink.new) result }
    ensures fault { result.status ≡ Status.WriteFault
        → Rose (K.faults sink.old) (K.faults sink.new) }
    ensures unread { IsNoCommand words.now → source.new ≡ source.old }
{
    match Command::of(alloc, words) {
        Ok(Some(command)) => answer_command(alloc, &command, source, sink),
        Ok(None) => Ended::empty(alloc, tell(sink, b"fault Usage\n", Status::Usage)),
        Err(AllocError) => Ended::empty(alloc, Status::NoMemory),
    }
}

/// Reads a file from the source, does what the words say, and writes the text, or a line that
/// names the fault, to the sink. It takes no threads and always returns.
///
/// `oracle`, alone, writes the text of the file's sequential timestamp-ordered simulation, and
/// `check` how many buffers each of its federates needs and whether there are enough. `upto` and a
/// time write the lines of that simulation's grants of this time or earlier, `save` and a time the
/// file of the federation with the cut of that simulation then, and `resume`, alone, reads such a
/// file and writes the text of the simulation that goes on from its cut. `replay` and
/// the words of a schedule ([`schedule_of`](kit_schedule::schedule_of)) run the federates as nodes
/// over one floor, with these turns, and write the text of the histories that the nodes report.
/// `regions`, alone, writes a line for each region of a file that has such, with the federates that
/// it reaches, and nothing for another. The words are looked at first; then comes the reading of
/// the source to its end, then its form, then the simulation or the run, and then the writing: a
/// text is made whole before its first byte is written.
pub fn plain<S: Source, K: Sink>(
    alloc: Global,
    words: &[Word],
    source: &mut S,
    sink: &mut K,
) -> Ended
    // Done: what was written is what the command asks of the file: for `oracle` and `replay` the
    // text of its sequential timestamp-ordered simulation, for `upto` its lines up to a time, for
    // `save` the saved file with its cut then, which is read again as the federation and that cut,
    // for `resume` the text of the simulation that goes on from the file's cut, for `check` the
    // text of its needs, for `regions` the lines of its plan's regions, or nothing where it has no
    // plan.
    ensures done { result.status ≡ Status.Done →
        IsAnswered S.Source words.now source.old source.new (K.holds sink.old) (K.holds sink.new) }

    // Each status has its cause, and its text was written whole; a front of it for WriteFault,
    // nothing for NoMemory. The nodes and the floor are those of the run that `replay` made, and
    // there are none where nothing was run.
    ensures told { IsEnded S.Source words.now source.old source.new
        (K.holds sink.old) (K.holds sink.new) result }
    ensures fault { result.status ≡ Status.WriteFault
        → Rose (K.faults sink.old) (K.faults sink.new) }

    // For words of no command the source is left as it is, whatever the status.
    ensures unread { IsNoCommand words.now → source.new ≡ source.old }
{
    answer(alloc, words, source, sink)
}

/// Where the source tells its bytes and no read failed, the words and the input, and for `replay`
/// how the run ended, cause one status and one text: so each status comes exactly where it has its
/// cause.
pub fn one_cause<S: Source>()
    ensures { OneCause S.Source }
{}

/// Where the words are those of a command, the source tells its bytes, which are not too many and
/// the file of a federation, and nobody takes number 16,385 in its simulation, the command is
/// answered: no status but Done and ReadFault has its cause, and Done with the text of the command.
///
/// For `replay` this holds where there are as many buffers as each federate needs, and it may also
/// be that the schedule ended before the run did.
pub fn completeness<S: Source>()
    ensures { Completes S.Source }
{}
