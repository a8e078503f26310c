ghost use Rattle.std.specs.Prelude.{◌≡◌, ◌↔◌, ◌≤◌, ℕ, [], ◌∷◌, decimal, IfOk, IfSome, IfNone};
ghost use Rattle.std.specs.Prelude.{IsTrue};
ghost use Rattle.kit_rules.specs.Limits.{most_time};
ghost use Rattle.kit_top.specs.Causes.{IsCommand, IsFederationCommand};

use crate::Word;
use crate::worker_command::number_in;
use kit_rules::MOST_TIME;
use kit_schedule::{Schedule, schedule_of};
use std::alloc::{AllocError, Global};

/// What the words of a command line ask for.
#[derive(Debug, Drop)]
pub enum Command {
    /// What is asked of the federation of a file.
    OnFederation(FederationCommand),
    /// `regions`: a line for each region to which the federates of a file send, with the federates
    /// that it reaches.
    Regions,
    /// `resume`: the text of the simulation that goes on from the cut of a saved file.
    Resume,
}

/// What is asked of a federation.
#[derive(Debug, Drop)]
pub enum FederationCommand {
    /// `oracle`: the text of the sequential simulation.
    Oracle,
    /// `check`: how many buffers each federate needs, and whether there are enough.
    Check,
    /// `replay` and the words of a schedule: the text of the histories of a run with these turns.
    Replay(Schedule),
    /// `upto` and a time: the lines of the sequential simulation up to that time.
    Upto(u64),
    /// `save` and a time: the saved file of the federation, with the cut of its simulation then.
    Save(u64),
}

/// The time that these words are, where they are one: from 0 to the greatest end time, in decimal
/// digits without a leading 0.
fn time_in(words: &[Word]) -> Option<u64>
    ensures some { IfSome result
        (λ time. (time ≤ most_time) × (words.now ≡ decimal time ∷ [])) }
    ensures none { IfNone result
        ((time : ℕ) → time ≤ most_time → words.now ≡ decimal time ∷ [] → ⊥) }
{
    let [word] = words else {
        return None;
    };
    let time = number_in(word.bytes())?;
    if time > MOST_TIME {
        return None;
    }
    Some(time)
}

impl FederationCommand {
    /// The command of these words, where they are one. It fails only for want of memory.
    fn of(alloc: Global, words: &[Word]) -> Result<Option<FederationCommand>, AllocError>
        ensures some { IfOk result
            (λ found. IfSome found (λ command. IsFederationCommand words.now command)) }
        ensures none { IfOk result (λ found. IfNone found
            ((command : FederationCommand) → IsFederationCommand words.now command → ⊥)) }
    {
        let Some((first, rest)) = words.split_first() else {
            return Ok(None);
        };
        if first.is("replay") {
            return match schedule_of(alloc, rest)? {
                Some(schedule) => Ok(Some(FederationCommand::Replay(schedule))),
                None => Ok(None),
            };
        }
        if first.is("upto") {
            return match time_in(rest) {
                Some(time) => Ok(Some(FederationCommand::Upto(time))),
                None => Ok(None),
            };
        }
        if first.is("save") {
            return match time_in(rest) {
                Some(time) => Ok(Some(FederationCommand::Save(time))),
                None => Ok(None),
            };
        }
        if !rest.is_empty() {
            return Ok(None);
        }
        if first.is("oracle") {
            return Ok(Some(FederationCommand::Oracle));
        }
        if first.is("check") {
            return Ok(Some(FederationCommand::Check));
        }
        Ok(None)
    }
}

/// Whether the words are those of `regions`.
fn is_regions(words: &[Word]) -> bool
    ensures { IsTrue result ↔ IsCommand words.now Command.Regions }
{
    match words {
        [word] => word.is("regions"),
        _ => false,
    }
}

/// Whether the words are those of `resume`.
fn is_resume(words: &[Word]) -> bool
    ensures { IsTrue result ↔ IsCommand words.now Command.Resume }
{
    match words {
        [word] => word.is("resume"),
        _ => false,
    }
}

impl Command {
    /// The command of these words, where they are one. It fails only for want of memory.
    pub(crate) fn of(alloc: Global, words: &[Word]) -> Result<Option<Command>, AllocError>
        ensures some { IfOk result
            (λ found. IfSome found (λ command. IsCommand words.now command)) }
        ensures none { IfOk result
            (λ found. IfNone found ((command : Command) → IsCommand words.now command → ⊥)) }
    {
        if is_regions(words) {
            return Ok(Some(Command::Regions));
        }
        if is_resume(words) {
            return Ok(Some(Command::Resume));
        }
        match FederationCommand::of(alloc, words)? {
            Some(command) => Ok(Some(Command::OnFederation(command))),
            None => Ok(None),
        }
    }
}
