//! The top call.

ghost use Rattle.std.specs.Prelude.{◌≡◌, ◌≤◌, ◌⊎◌, IfSome, drop, length};
ghost use Rattle.kit_io.specs.Causes.{Rose};
ghost use Rattle.kit_top.specs.declared.status.Status.{Status};
ghost use Rattle.kit_top.specs.declared.worker_command.WorkerCommand.{WorkerCommand};
ghost use Rattle.kit_top.specs.Causes.{IsAnswered, IsEnded, IsNoCommand};
ghost use Rattle.kit_top.specs.Headline.{AreComplete, FillsOnlyUnread, IsAccounted, IsAnsweredBy};
ghost use Rattle.kit_top.specs.Headline.{IsLeftByLock, IsOfRun, IsThere, NothingCameLate};
ghost use Rattle.kit_top.specs.Headline.{IsBadInput, RulesKeepIt};
ghost use Rattle.kit_top.specs.WorkerCommands.{IsNoWorkerCommand, IsWorkerCommand, ReadsInput};
ghost use Rattle.kit_top.specs.WorkerCommands.{workers_of};
ghost use Rattle.kit_top.specs.WorkerRuns.{EndsByWorkers};

use crate::worker_runs::answer_by_workers;
use crate::{Ended, Word, WorkerCommand, plain};
use kit_io::{Sink, Source};
use kit_runner::Gate;
use std::alloc::Global;
use std::sync::Wait;
use std::thread::Threads;

/// Answers the words of a command line: those of [`plain`](crate::plain), and three that run the
/// nodes of a federation by workers in threads of their own, one for each of the first gates.
///
/// `lock` and a number of workers, from 1 to 16, runs the federation of the source's file over one
/// lock, and `run` over words that the workers share; both write the text of the histories that the
/// nodes report. `trial`, a number and a number of workers runs the federation that the generator
/// makes of the first ([`federation_of`](kit_gen::federation_of)) as `run` does, reads no source,
/// and writes the summary of its histories. For all other words it is `plain`.
///
/// What holds at each moment of a run, for every number of workers and every order of their steps,
/// says [`rules_keep_it`](crate::rules_keep_it).
pub fn rtik<S: Source, K: Sink, G: Gate + Send, R: Threads + Wait + Sync>(
    rt: &R,
    alloc: Global,
    words: &[Word],
    source: &mut S,
    sink: &mut K,
    gates: &mut [G],
) -> Ended
    requires { 16 ≤ length gates.old }

    // No late message: what a federate was handed after a grant is timed after that grant.
    ensures on_time { IfSome result.account (λ a. NothingCameLate a.places) }

    // No buffer is filled again while a counted reader has not released it.
    ensures unread { IfSome result.account FillsOnlyUnread }

    // Done: what was written is the text of the federation's sequential timestamp-ordered
    // simulation, for a trial the summary of that; and each federate has made its whole part.
    ensures done { (command : WorkerCommand) → IsWorkerCommand words.now command
        → result.status ≡ Status.Done → IsAnsweredBy S.Source command source.old source.new
        (K.holds sink.old) (K.holds sink.new) }
    ensures complete { (command : WorkerCommand) → IsWorkerCommand words.now command
        → result.status ≡ Status.Done → AreComplete command result.floor result.account }

    // What is left of a run: for `run` and `trial` the account of the floor, for `lock` the plain
    // floor. Whatever the status, it is of the command's federation, both rules held at its end,
    // each journal is lawful and agrees with the simulation, and each report is of its federate's
    // view. It is missing only where there was no memory, or the input was none.
    ensures account { IfSome result.account
        (IsAccounted S.Source words.now source.old source.new result.nodes.items) }
    ensures floor { (command : WorkerCommand) → IsWorkerCommand words.now command
        → IfSome result.floor
        (IsLeftByLock S.Source command source.old source.new result.nodes.items) }
    ensures there { (command : WorkerCommand) → IsWorkerCommand words.now command
        → IsOfRun result.status → IsThere command result.floor result.account }
    ensures unwritten { (command : WorkerCommand) → IsWorkerCommand words.now command
        → result.status ≡ Status.WriteFault → IsThere command result.floor result.account
        ⊎ IsBadInput S.Source command source.old source.new }

    // Each status has its cause, and its text or line was written whole; a front of it for
    // WriteFault, nothing for NoMemory.
    ensures ended { (command : WorkerCommand) → IsWorkerCommand words.now command
        → EndsByWorkers S.Source command source.old source.new
        (K.holds sink.old) (K.holds sink.new) result }
    ensures fault { result.status ≡ Status.WriteFault
        → Rose (K.faults sink.old) (K.faults sink.new) }

    // A trial leaves the source as it is; and gates beyond the workers are left alone.
    ensures not_read { (command : WorkerCommand) → IsWorkerCommand words.now command
        → (ReadsInput command → ⊥) → source.new ≡ source.old }
    ensures idle { (command : WorkerCommand) → IsWorkerCommand words.now command
        → drop (workers_of command) gates.new ≡ drop (workers_of command) gates.old }

    // For all other words it does what `plain` promises, and no gate is touched.
    ensures plain { IsNoWorkerCommand words.now → IsEnded S.Source words.now source.old source.new
        (K.holds sink.old) (K.holds sink.new) result }
    ensures plain_done { IsNoWorkerCommand words.now → result.status ≡ Status.Done
        → IsAnswered S.Source words.now source.old source.new
        (K.holds sink.old) (K.holds sink.new) }
    ensures plain_unread { IsNoWorkerCommand words.now → IsNoCommand words.now
        → source.new ≡ source.old }
    ensures plain_gates { IsNoWorkerCommand words.now → gates.new ≡ gates.old }
{
    match WorkerCommand::of(words) {
        Some(command) => answer_by_workers(rt, alloc, &command, source, sink, gates),
        None => plain(alloc, words, source, sink),
    }
}

/// What the rules keep that hold between any two steps of a run: nothing came late, and a buffer is
/// filled only where nobody reads it. Every step of every worker keeps both rules, since a floor of
/// shared words is one table whose rule they are
/// ([`seats_keep_the_rules`](kit_pool::seats_keep_the_rules)), and nodes make steps of this floor
/// alone.
pub fn rules_keep_it()
    ensures { RulesKeepIt }
{}
