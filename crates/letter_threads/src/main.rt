//! Federates on one floor, each in a thread of its own, send each other letters by two mail words,
//! and compare each letter that comes with the one that is due. Words: how many letters go from
//! each federate to each other one by each mail word, and how many federates there are, 2 to 4.
//! Without the second word there are 2, and a guest in a third thread looks at their clocks. With
//! `look`, `publish`, `free` or `collect` as the second word one thread makes that call so often
//! instead, for measuring.
#![tactic(auto)]

mod calls;
mod trades;
mod watching;

use calls::{Call, repeat};
use std::alloc::Global;
use std::process::ExitCode;
use std::thread::Threads;
use std::{env, io};
use trades::{trade_on_threads, trade_watched};

/// What the words of the command line ask for.
enum Task {
    Trade(u8),
    TradeWatched,
    Repeat(Call),
}

fn task_of(word: &str) -> Option<Task> {
    match word.as_bytes() {
        b"2" => Some(Task::Trade(2)),
        b"3" => Some(Task::Trade(3)),
        b"4" => Some(Task::Trade(4)),
        b"look" => Some(Task::Repeat(Call::Look)),
        b"publish" => Some(Task::Repeat(Call::Publish)),
        b"free" => Some(Task::Repeat(Call::Free)),
        b"collect" => Some(Task::Repeat(Call::Collect)),
        _ => None,
    }
}

/// The words of the command line: a number and a task.
fn words_of(rt: &HostRuntime) -> io::Result<Option<(u64, Task)>> {
    let mut words = env::args(rt)?;
    let Some(number) = words.nth(1) else {
        return Ok(None);
    };
    let Ok(number) = number.parse::<u64>() else {
        return Ok(None);
    };
    let task = match words.next() {
        Some(word) => task_of(word.as_str()),
        None => Some(Task::TradeWatched),
    };
    Ok(task.map(|task| (number, task)))
}

/// What a run of so many federates is to say of its letters.
fn report<R: Threads + Print + Sync>(
    rt: &R,
    alloc: Global,
    federates: u8,
    letters: u64,
) -> io::Result<()> {
    let federates = if federates < 2 { 2 } else { federates.min(4) };
    let Ok(all) = trade_on_threads(rt, alloc, federates, letters) else {
        return println!(rt; "no memory");
    };
    let ways = u64::from(federates) * (u64::from(federates) - 1) * 2;
    let due = letters.wrapping_mul(ways);
    if all.came == due && all.wrong == 0 {
        println!(rt; "{federates} federates, {due} letters: all came as they were sent")
    } else {
        println!(rt;
            "{federates} federates, {due} letters: {} came, {} of them wrong",
            all.came, all.wrong
        )
    }
}

/// What a run of two federates that a guest watches is to say.
fn report_watched<R: Threads + Print + Sync>(
    rt: &R,
    alloc: Global,
    letters: u64,
) -> io::Result<()> {
    let Ok((all, sight)) = trade_watched(rt, alloc, letters) else {
        return println!(rt; "no memory");
    };
    let due = letters.wrapping_mul(4);
    if all.came == due && all.wrong == 0 && sight.fell == 0 && sight.is_over() {
        println!(rt; "2 federates, {due} letters: all came as they were sent")?;
        println!(rt; "a guest saw both clocks to the end, and none fell")
    } else {
        println!(rt;
            "2 federates, {due} letters: {} came, {} of them wrong",
            all.came, all.wrong
        )?;
        println!(rt;
            "a guest saw the clocks at {} and {}, and {} falls",
            sight.first, sight.second, sight.fell
        )
    }
}

fn main(rt: HostRuntime) -> ExitCode {
    let Ok(Some((number, task))) = words_of(&rt) else {
        return ExitCode::FAILURE;
    };
    let done = match task {
        Task::Trade(federates) => report(&rt, rt.alloc(), federates, number),
        Task::TradeWatched => report_watched(&rt, rt.alloc(), number),
        Task::Repeat(call) => match repeat(rt.alloc(), call, number) {
            Ok(sum) => println!(rt; "{sum}"),
            Err(_) => println!(rt; "no memory"),
        },
    };
    match done {
        Ok(()) => ExitCode::SUCCESS,
        Err(_) => ExitCode::FAILURE,
    }
}
