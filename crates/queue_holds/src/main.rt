//! Holds a queue at a number of entries: takes the first and inserts it again some time later, as
//! often as asked, and prints the sum of the times taken. It is for measuring what a queue costs.
//! Words: `ring`, `calendar` or `batch`; `uniform`, `exponential` or `bimodal`; how many entries;
//! how often.
#![tactic(auto)]

mod draws;
mod holds;

use draws::Increments;
use holds::hold_many;
use kit_batch::BatchQueue;
use kit_calendar::Calendar;
use kit_queue::TsQueue;
use std::alloc::{AllocError, Global};
use std::process::ExitCode;
use std::{env, io};

/// Which queue is measured.
#[derive(Clone, Copy, Debug)]
enum Queue {
    Ring,
    Calendar,
    Batch,
}

/// What the words of the command line ask for.
#[derive(Clone, Copy, Debug)]
struct Task {
    queue: Queue,
    increments: Increments,
    entries: u16,
    holds: u64,
}

fn queue_of(word: &str) -> Option<Queue> {
    match word.as_bytes() {
        b"ring" => Some(Queue::Ring),
        b"calendar" => Some(Queue::Calendar),
        b"batch" => Some(Queue::Batch),
        _ => None,
    }
}

fn increments_of(word: &str) -> Option<Increments> {
    match word.as_bytes() {
        b"uniform" => Some(Increments::Uniform),
        b"exponential" => Some(Increments::Exponential),
        b"bimodal" => Some(Increments::Bimodal),
        _ => None,
    }
}

fn task_of(queue: &str, increments: &str, entries: &str, holds: &str) -> Option<Task> {
    Some(Task {
        queue: queue_of(queue)?,
        increments: increments_of(increments)?,
        entries: entries.parse::<u16>().ok()?,
        holds: holds.parse::<u64>().ok()?,
    })
}

/// The words of the command line, if they are four that ask for something.
fn words_of(rt: &HostRuntime) -> io::Result<Option<Task>> {
    let mut words = env::args(rt)?;
    let (Some(queue), Some(increments)) = (words.nth(1), words.next()) else {
        return Ok(None);
    };
    let (Some(entries), Some(holds)) = (words.next(), words.next()) else {
        return Ok(None);
    };
    Ok(task_of(
        queue.as_str(),
        increments.as_str(),
        entries.as_str(),
        holds.as_str(),
    ))
}

fn sum_of(alloc: Global, task: &Task) -> Result<u64, AllocError> {
    match task.queue {
        Queue::Ring => hold_many::<TsQueue>(alloc, task.increments, task.entries, task.holds),
        Queue::Calendar => hold_many::<Calendar>(alloc, task.increments, task.entries, task.holds),
        Queue::Batch => hold_many::<BatchQueue>(alloc, task.increments, task.entries, task.holds),
    }
}

fn main(rt: HostRuntime) -> ExitCode {
    let Ok(Some(task)) = words_of(&rt) else {
        return ExitCode::FAILURE;
    };
    let Ok(sum) = sum_of(rt.alloc(), &task) else {
        return ExitCode::FAILURE;
    };
    let _ = println!(rt; "{sum}");
    ExitCode::SUCCESS
}
