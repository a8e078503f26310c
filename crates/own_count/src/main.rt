//! The first program to read, for whoever builds on the crates: a federation that is built in code,
//! simulated and told as text, with a count of its own that an observer makes.
//!
//! It first asks for a federation whose writer sends too soon, and prints what is wrong with it.
#![tactic(auto)]

mod deliveries;
mod news;

use deliveries::count_deliveries;
use kit_oracle::{OracleEnd, simulate};
use kit_report::text;
use kit_rules::FederationFault;
use news::news;
use std::alloc::AllocError;
use std::io;
use std::process::ExitCode;
use std::str::Utf8Error;

/// Why the program could not do what it is to do.
#[derive(Debug, Drop, thiserror::Error)]
pub enum Failure {
    /// The parts make no federation.
    #[error("{0}")]
    Parts(#[from] FederationFault),
    /// The simulation ended early.
    #[error("{0}")]
    Simulation(#[from] OracleEnd),
    /// The text is none in UTF-8.
    #[error("{0}")]
    Text(#[from] Utf8Error),
    /// There was no memory.
    #[error("memory ran out")]
    Memory(#[from(alloc)] AllocError),
    /// A write failed.
    #[error("the text could not be written")]
    Output(#[from] io::Error),
}

/// Simulates the news and prints their text, and how many messages were delivered.
fn tell(rt: &HostRuntime) -> Result<(), Failure> {
    let alloc = rt.alloc();
    if let Err(failure) = news(alloc, 1) {
        println!(rt; "with a delay of 1: {failure}")?;
    }
    let federation = news(alloc, 2)?;
    let history = simulate(alloc, &federation)?;
    let bytes = text(alloc, &federation, &history)?;
    print!(rt; "{}", str::from_utf8(&bytes)?)?;
    let count = count_deliveries(alloc, &federation)?;
    println!(rt; "{count} deliveries")?;
    Ok(())
}

fn main(rt: HostRuntime) -> ExitCode {
    match tell(&rt) {
        Ok(()) => ExitCode::SUCCESS,
        Err(failure) => {
            let _ = eprintln!(rt; "{failure}");
            ExitCode::FAILURE
        }
    }
}
