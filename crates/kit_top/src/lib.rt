//! The top call: from the words of a command line and a source to what is written to a sink.
#![tactic(auto)]

mod answers;
mod bad_end;
mod bad_file;
mod command;
mod commands;
mod ended;
mod federates;
mod history;
mod input;
mod laws;
mod regions;
mod replays;
mod saving;
mod status;
mod top;
mod worker_command;
mod worker_runs;
mod writing;

pub use command::{Command, FederationCommand};
pub use commands::{completeness, one_cause, plain};
pub use ended::Ended;
pub use kit_runner::{Gate, Through};
pub use kit_schedule::Word;
pub use laws::{
    completeness_by_workers, nothing_is_lost, one_cause_by_workers, plans_are_simulated,
};
pub use status::Status;
pub use top::{rtik, rules_keep_it};
pub use worker_command::WorkerCommand;

#[cfg(test)]
mod tests;
