//! Sends letters round among 16 federates of one plain floor, as often as its first word says, and
//! prints how many came, with the sum of their words. It is for measuring what a step of the floor
//! costs.
#![tactic(auto)]

mod rounds;

use kit_courier::Couriers;
use kit_ground::PlainFloor;
use kit_known::Known;
use rounds::{BUFFERS, FEDERATES, Tally, send_round};
use std::process::ExitCode;
use std::{env, io};

/// How many letters to send: the first word of the command line.
fn turns_of(rt: &HostRuntime) -> io::Result<Option<u64>> {
    match env::args(rt)?.nth(1) {
        Some(word) => Ok(word.parse::<u64>().ok()),
        None => Ok(None),
    }
}

fn main(rt: HostRuntime) -> ExitCode {
    let Ok(Some(turns)) = turns_of(&rt) else {
        return ExitCode::FAILURE;
    };
    let opening = Known::new(&FEDERATES);
    let Ok(mut floor) = PlainFloor::<Couriers>::new(rt.alloc(), FEDERATES, BUFFERS, &opening) else {
        return ExitCode::FAILURE;
    };
    let Tally { letters, sum } = send_round(&mut floor, turns);
    let _ = println!(rt; "{letters} letters, sum {sum}");
    ExitCode::SUCCESS
}
