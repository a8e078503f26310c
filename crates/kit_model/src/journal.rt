ghost use Rattle.std.specs.Prelude.{◌≡◌, ◌<◌, ◌≤◌, ◌+◌, [], ◌∷◌, ◌++◌, IfOk, OnOk, OnErr};
ghost use Rattle.std.specs.Option.{option_to_list};
ghost use Rattle.kit_model.specs.Journals.{line_told, lines_told};

use kit_base::{Items, Line, Message, Part};
use std::alloc::{AllocError, Global};
use std::marker::Model;

/// One thing that happened to a federate.
#[derive(Clone, Copy, Debug, PartialEq, Eq)]
pub enum JournalEntry {
    /// A copy of a message arrived; a Retraction is a message too.
    Received {
        /// The message.
        message: Message,
    },
    /// An Event was given to the federate's rules.
    Delivered {
        /// The time of the grant with which it was delivered: the message's own time or a later
        /// one. In four bytes, so that an entry is no larger than it must be: a journal has one
        /// for each delivery.
        granted: u32,
        /// The Event.
        message: Message,
    },
    /// The federate's request to advance was granted.
    Granted {
        /// Its new logical time.
        time: u64,
    },
}

/// What happened to a federate, in order.
///
/// Contracts see a journal as the list `entries` and the number `spare`, which says for how many
/// more entries memory is set aside. Only `reserve` takes memory.
#[derive(Debug, Drop)]
pub struct Journal {
    entries: Vec<JournalEntry>,
    /// For how many more entries memory is set aside.
    reserved: usize,
}

impl Model for Journal {
    ghost use Rattle.std.specs.Prelude.{◌≤◌, ◌+◌, length, vec_capacity};
    ghost use Rattle.kit_model.specs.Journals.{JournalState};

    ghost Value = { JournalState };

    ghost view = { λ j. record { entries = j.entries.items; spare = j.reserved } };

    ghost invariant = { λ j. length j.entries.items + j.reserved ≤ vec_capacity j.entries };
}

impl Journal {
    /// A journal with no entry.
    pub fn empty(alloc: Global) -> Journal
        ensures entries { result.entries ≡ [] }
        ensures spare { result.spare ≡ 0 }
    {
        Journal {
            entries: Vec::new(alloc),
            reserved: 0,
        }
    }

    /// Sets memory aside for `more` further entries. It fails only for want of memory.
    pub fn reserve(&mut self, more: usize) -> Result<(), AllocError>
        ensures ok { OnOk result (more ≤ self.new.spare) }
        ensures same { self.new.entries ≡ self.old.entries }
        ensures kept { self.old.spare ≤ self.new.spare }
        ensures err { OnErr result (self.new ≡ self.old) }
    {
        self.entries.reserve(more)?;
        self.reserved = self.reserved.max(more);
        Ok(())
    }

    /// Adds an entry at the end, in memory that was set aside.
    pub fn push(&mut self, entry: JournalEntry)
        requires { 0 < self.old.spare }
        ensures entries { self.new.entries ≡ self.old.entries ++ entry ∷ [] }
        ensures spent { self.new.spare + 1 ≡ self.old.spare }
    {
        // There is room, so the push succeeds.
        let _ = self.entries.push(entry);
        self.reserved -= 1;
    }

    /// The entries, in the order in which they were added.
    pub fn entries(&self) -> &[JournalEntry]
        ensures { result.now ≡ self.now.entries }
    {
        self.entries.as_slice()
    }

    /// The federate's part of a history: its deliveries and grants in their order, without what it
    /// received, and the closing values of its variables. It fails only for want of memory.
    pub fn part(&self, alloc: Global, federate: u8, vars: [u32; 8]) -> Result<Part, AllocError>
        ensures lines { IfOk result (λ part. part.lines ≡ lines_told federate self.now.entries) }
        ensures vars { IfOk result (λ part. part.vars ≡ vars) }
    {
        let lines = lines_of(alloc, federate, self.entries.as_slice())?;
        Ok(Part { lines, vars })
    }
}

/// The line that an entry tells of a federate, if it tells one.
fn line_of(federate: u8, entry: &JournalEntry) -> Option<Line>
    ensures { option_to_list result ≡ line_told federate entry.now }
{
    match entry {
        JournalEntry::Received { .. } => None,
        JournalEntry::Delivered { granted, message } => Some(Line::Deliver {
            granted: *granted as u64,
            federate,
            message: *message,
        }),
        JournalEntry::Granted { time } => Some(Line::Grant {
            time: *time,
            federate,
        }),
    }
}

/// The lines that the entries tell of a federate.
fn lines_of(
    alloc: Global,
    federate: u8,
    entries: &[JournalEntry],
) -> Result<Items<Line>, AllocError>
    ensures { IfOk result (λ lines. lines ≡ lines_told federate entries.now) }
{
    let mut lines = Items::new(alloc);
    for entry in entries {
        if let Some(line) = line_of(federate, entry) {
            lines.push(line)?;
        }
    }
    Ok(lines)
}

#[cfg(test)]
mod tests {
    use super::*;
    use kit_base::Kind;
    use std::test::Fail;

    #[test]
    fn keeps_what_was_pushed(rt: HostRuntime) -> Result<(), Fail> {
        let mut journal = Journal::empty(rt.alloc());
        let entries = [
            JournalEntry::Granted { time: 3 },
            JournalEntry::Granted { time: 5 },
        ];
        journal.reserve(2)?;
        journal.push(entries[0]);
        journal.push(entries[1]);
        assert_eq!(rt; journal.entries(), entries.as_slice());
        Ok(())
    }

    #[test]
    fn a_part_has_deliveries_and_grants(rt: HostRuntime) -> Result<(), Fail> {
        let message = Message {
            time: 2,
            sender: 1,
            number: 1,
            kind: Kind::Event,
            group: 0,
            value: 7,
        };
        let mut journal = Journal::empty(rt.alloc());
        journal.reserve(3)?;
        journal.push(JournalEntry::Received { message });
        journal.push(JournalEntry::Delivered {
            granted: 3,
            message,
        });
        journal.push(JournalEntry::Granted { time: 3 });
        let part = journal.part(rt.alloc(), 4, [9; 8])?;
        let federate = 4;
        let lines = [
            Line::Deliver {
                granted: 3,
                federate,
                message,
            },
            Line::Grant { time: 3, federate },
        ];
        assert_eq!(rt; part.lines.as_slice(), lines.as_slice());
        assert_eq!(rt; part.vars, [9; 8]);
        Ok(())
    }
}
