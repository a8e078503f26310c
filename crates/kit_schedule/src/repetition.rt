//! One word of a schedule.

ghost use Rattle.std.specs.Prelude.{◌≡◌, ◌≢◌, ◌*◌, ◌^◌, ◌<◌, ◌≤◌, ◌↔◌, ◌++◌, ℕ, List, All, IsTrue};
ghost use Rattle.std.specs.Prelude.{IfSome, IfNone, OnOk, length, map, slice_index};
ghost use Rattle.kit_schedule.specs.Schedules.{AreLetters, IsCount, IsLetter, IsRepetition};
ghost use Rattle.kit_schedule.specs.Schedules.{entries_of, federate_of};

use std::alloc::AllocError;

/// The most repetitions that a word may ask for.
const MOST_TIMES: usize = 1_000_000;

/// The letters of a word, and how often it takes them.
#[derive(Clone, Copy)]
pub(crate) struct Repetition<'a> {
    times: usize,
    letters: &'a [u8],
}

fn are_letters(letters: &[u8]) -> bool
    ensures { IsTrue result ↔ AreLetters letters.now }
{
    !letters.is_empty() && letters.iter().all(|letter| matches!(letter, b'a'..=b'p'))
}

/// The number that these digits are, where it is one from 1 to 1,000,000 without a leading 0.
fn count_of(digits: &[u8]) -> Option<usize>
    ensures some { IfSome result (IsCount digits.now) }
    ensures none { IfNone result ((count : ℕ) → IsCount digits.now count → ⊥) }
{
    if digits.starts_with(b"0") {
        return None;
    }
    let mut count = 0;
    for digit in digits {
        if !digit.is_ascii_digit() {
            return None;
        }
        count = 10 * count + usize::from(*digit - b'0');
        if count > MOST_TIMES {
            return None;
        }
    }
    if count == 0 { None } else { Some(count) }
}

/// The place of the first `*`.
fn star_in(word: &[u8]) -> Option<usize>
    ensures within { IfSome result (λ k. k < length word.now) }
    ensures here { IfSome result (λ k. slice_index word.now k ≡ 42) }
    ensures first { IfSome result (λ k. (j : ℕ) → j < k → slice_index word.now j ≢ 42) }
    ensures none { IfNone result ((j : ℕ) → j < length word.now → slice_index word.now j ≢ 42) }
{
    word.iter().position(|byte| *byte == b'*')
}

impl Repetition<'_> {
    fn new(times: usize, letters: &[u8]) -> Option<Repetition<'_>>
        ensures times { IfSome result (λ r. r.times ≡ times) }
        ensures letters { IfSome result (λ r. r.letters.now ≡ letters.now) }
        ensures some { IfSome result (λ _. AreLetters letters.now) }
        ensures none { IfNone result (AreLetters letters.now → ⊥) }
    {
        if are_letters(letters) {
            Some(Repetition { times, letters })
        } else {
            None
        }
    }

    /// What a word of a schedule asks for; `None` for a word that is none.
    pub(crate) fn of(word: &[u8]) -> Option<Repetition<'_>>
        ensures some { IfSome result (λ r. IsRepetition word.now r.times r.letters.now) }
        ensures none { IfNone result
            ((times : ℕ) (letters : List ℕ) → IsRepetition word.now times letters → ⊥) }
    {
        let Some(star) = star_in(word) else {
            return Repetition::new(1, word);
        };
        let times = count_of(&word[..star])?;
        Repetition::new(times, &word[star + 1..])
    }

    /// How many entries it stands for, where they can be counted.
    pub(crate) fn len(&self) -> Option<usize>
        ensures some { IfSome result (λ n. n ≡ self.now.times * length self.now.letters.now) }
        ensures none { IfNone result (2 ^ 64 ≤ self.now.times * length self.now.letters.now) }
    {
        self.times.checked_mul(self.letters.len())
    }

    /// Writes its entries behind others.
    pub(crate) fn write(&self, entries: &mut Vec<u8>) -> Result<(), AllocError>
        requires { All IsLetter self.now.letters.now }
        ensures { OnOk result
            (entries.new.items ≡ entries.old.items
            ++ entries_of self.now.times self.now.letters.now) }
    {
        for _ in 0..self.times {
            push_federates(entries, self.letters)?;
        }
        Ok(())
    }
}

fn push_federates(entries: &mut Vec<u8>, letters: &[u8]) -> Result<(), AllocError>
    requires { All IsLetter letters.now }
    ensures { OnOk result
        (entries.new.items ≡ entries.old.items ++ map federate_of letters.now) }
{
    for letter in letters {
        entries.push(*letter - b'a')?;
    }
    Ok(())
}
