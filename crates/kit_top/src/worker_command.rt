ghost use Rattle.std.specs.Prelude.{◌≡◌, ℕ, ◌+◌, ◌*◌, ◌^◌, ◌<◌, ◌≤◌, IfNone, IfSome, IsFalse};
ghost use Rattle.std.specs.Prelude.{IsTrue, decimal, length, slice_index};
ghost use Rattle.kit_top.specs.WorkerCommands.{AreWorkers, IsNoWorkerCommand, IsWorkerCommand};
ghost use Rattle.kit_top.specs.WorkerCommands.{workers_of};

use crate::Word;

/// The most workers.
const MOST_WORKERS: u64 = 16;

/// What the words of a command line ask of workers.
#[derive(Clone, Copy, Debug)]
pub enum WorkerCommand {
    /// `lock` and a number of workers: the text of the histories of a run in which they share one
    /// lock.
    Lock(u8),
    /// `run` and a number of workers: that of a run in which they share the words of a floor.
    Run(u8),
    /// `trial`, the number of a federation that the generator makes, and a number of workers: the
    /// summary of such a run.
    Trial { number: u64, workers: u8 },
}

impl WorkerCommand {
    /// The command of these words, where they are one.
    pub(crate) fn of(words: &[Word]) -> Option<WorkerCommand>
        ensures some { IfSome result (IsWorkerCommand words.now) }
        ensures workers { IfSome result (λ command. AreWorkers (workers_of command)) }
        ensures none { IfNone result (IsNoWorkerCommand words.now) }
    {
        match words {
            [word, workers] if word.is("lock") => {
                Some(WorkerCommand::Lock(workers_in(workers.bytes())?))
            }
            [word, workers] if word.is("run") => {
                Some(WorkerCommand::Run(workers_in(workers.bytes())?))
            }
            [word, number, workers] if word.is("trial") => Some(WorkerCommand::Trial {
                number: number_in(number.bytes())?,
                workers: workers_in(workers.bytes())?,
            }),
            _ => None,
        }
    }

    /// How many workers there are to be.
    pub(crate) fn workers(&self) -> u8
        ensures { result ≡ workers_of self.now }
    {
        match self {
            WorkerCommand::Lock(workers) | WorkerCommand::Run(workers) => *workers,
            WorkerCommand::Trial { workers, .. } => *workers,
        }
    }
}

/// The number of workers that these digits are, where it is one from 1 to 16.
fn workers_in(digits: &[u8]) -> Option<u8>
    ensures some { IfSome result (λ n. AreWorkers n × (digits.now ≡ decimal n)) }
    ensures none { IfNone result ((n : ℕ) → AreWorkers n → digits.now ≡ decimal n → ⊥) }
{
    let number = number_in(digits)?;
    if number == 0 || number > MOST_WORKERS {
        return None;
    }
    Some(number as u8)
}

/// The number that these digits are, where it is one without a leading 0 (0 itself is `0`) and has
/// room in 64 bits.
pub(crate) fn number_in(digits: &[u8]) -> Option<u64>
    ensures some { IfSome result (λ n. digits.now ≡ decimal n) }
    ensures room { IfSome result (λ n. n < 2 ^ 64) }
    ensures none { IfNone result ((n : ℕ) → n < 2 ^ 64 → digits.now ≡ decimal n → ⊥) }
{
    if !may_be_decimal(digits) {
        return None;
    }
    let mut number = 0;
    for digit in digits {
        if !digit.is_ascii_digit() {
            return None;
        }
        let Some(more) = with_digit(number, *digit - b'0') else {
            return None;
        };
        number = more;
    }
    Some(number)
}

/// Whether there are digits, and no leading 0.
fn may_be_decimal(digits: &[u8]) -> bool
    ensures some { IsTrue result → 0 < length digits.now }
    ensures zero { IsTrue result → slice_index digits.now 0 ≡ 48 → length digits.now ≡ 1 }
    ensures no { IsFalse result → 0 < length digits.now
        → (slice_index digits.now 0 ≡ 48 → length digits.now ≡ 1) → ⊥ }
{
    match digits {
        [] => false,
        [_] => true,
        [first, ..] => *first != b'0',
    }
}

/// The number with one more digit, where it has room.
fn with_digit(number: u64, digit: u8) -> Option<u64>
    ensures some { IfSome result (λ n. n ≡ 10 * number + digit) }
    ensures room { IfSome result (λ n. n < 2 ^ 64) }
    ensures none { IfNone result (2 ^ 64 ≤ 10 * number + digit) }
{
    number.checked_mul(10)?.checked_add(u64::from(digit))
}
