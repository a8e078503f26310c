//! Laws of what the commands with workers cause, and of files with regions: each is the contract of
//! a function that does nothing.

ghost use Rattle.kit_top.specs.Regions.{PlansAreSimulated};
ghost use Rattle.kit_top.specs.SavingLaws.{RestIsResumed, TextIsCutInTwo};
ghost use Rattle.kit_top.specs.WorkerLaws.{CompletesByWorkers, OneCauseByWorkers};

use kit_cut::simulation_is_cut_in_two;
use kit_io::Source;

/// Where the source tells its bytes and no read failed, a command with workers, the input and how
/// the run ended cause one status and one text: so each status comes exactly where it has its
/// cause.
pub fn one_cause_by_workers<S: Source>()
    ensures { OneCauseByWorkers S.Source }
{}

/// Where the source tells its bytes, which are not too many and the file of a federation, nobody
/// takes number 16,385 in its simulation, and there are as many buffers as each federate needs, no
/// status has its cause but Done, with the text of the command, that a federate took all rounds
/// that there may be, and ReadFault. For a trial the same holds of the federation of its number,
/// whatever the source.
pub fn completeness_by_workers<S: Source>()
    ensures { CompletesByWorkers S.Source }
{}

/// The simulation of the federation that a file of version 3 gives is that of its plan, in which a
/// message goes where ranges overlap; so are its text, its needs and the federate that first takes
/// number 16,385. What other promises say of the federation of a file, they say of its plan.
pub fn plans_are_simulated()
    ensures { PlansAreSimulated }
{}

/// What is saved and resumed loses nothing. The text of a simulation is that of its lines up to a
/// time, which `upto` writes, followed by the text that is resumed from its cut then. And where
/// nobody takes number 16,385 in the simulation, `resume` on the bytes that `save` writes has no
/// cause for another status than Done, and for no other text than the rest of that of `oracle`.
pub fn nothing_is_lost()
    ensures text { TextIsCutInTwo }
    ensures rest { RestIsResumed }
{
    simulation_is_cut_in_two();
}
