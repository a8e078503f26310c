//! What is wrong with a file, and where.

ghost use Rattle.std.specs.Prelude.{◌≡◌, ◌≢◌, ◌++◌, [], IfOk, OnOk, codes};
ghost use Rattle.std.specs.Fmt.{decimal};
ghost use Rattle.kit_walk.specs.Paths.{key_path, item_path, index_path};
ghost use Rattle.kit_walk.specs.declared.fault.WalkEnd.TheVariants.{Memory};

use kit_base::push_decimal;
use std::alloc::{AllocError, AllocFailed, Global};
use std::fmt::{self, Display, Formatter, Write};
use std::marker::Model;

/// Where in a file, as text: the keys from the root joined by `.`, with `[i]` for the i-th member
/// of a list, from 0. The path of the root is `.`.
#[derive(Debug, Drop)]
pub struct FaultPath {
    bytes: Vec<u8>,
}

impl Model for FaultPath {
    ghost use Rattle.std.specs.Prelude.{List, ℕ};

    ghost Value = { List ℕ };

    ghost view = { λ p. p.bytes.items };
}

impl FaultPath {
    /// The text of the path, in UTF-8.
    pub fn bytes(&self) -> &[u8]
        ensures { result.now ≡ self.now }
    {
        &self.bytes
    }
}

impl Display for FaultPath {
    fn fmt<W: Write>(&self, f: &mut Formatter<W>) -> fmt::Result {
        match str::from_utf8(&self.bytes) {
            Ok(path) => f.write_str(path),
            Err(_) => f.write_str("?"),
        }
    }
}

/// Why a file gives no federation.
#[derive(Debug, Drop, thiserror::Error)]
pub enum FileFault {
    /// The bytes are no JSON text.
    #[error("the file is no JSON text")]
    NotJson,
    /// A key that has to be there is not. The path is the one that it would have.
    #[error("{path} is missing")]
    Missing { path: FaultPath },
    /// A value is of another kind than its place asks for.
    #[error("{path} is of the wrong kind")]
    WrongKind { path: FaultPath },
    /// A number, the form of a name or the length of a list is outside its range.
    #[error("{path} is out of range")]
    OutOfRange { path: FaultPath },
    /// A text names nothing that is known here.
    #[error("{path} names nothing that is known")]
    UnknownName { path: FaultPath },
    /// A name stands a second time in the same list.
    #[error("{path} repeats a name")]
    Repeated { path: FaultPath },
    /// The delay of a send is below the federate's lookahead.
    #[error("{path} is below the lookahead of the federate")]
    SendTooSoon { path: FaultPath },
    /// A federate that is not time-regulating has an action that sends or takes back.
    #[error("{path} sends or takes back, and its federate is not time-regulating")]
    NotRegulating { path: FaultPath },
    /// Memory ran out.
    #[error("memory ran out")]
    NoMemory,
}

/// What is wrong at a place: the faults of a file that have a path, without it.
#[derive(Clone, Copy, Debug, PartialEq, Eq)]
pub enum FaultKind {
    Missing,
    WrongKind,
    OutOfRange,
    UnknownName,
    Repeated,
    SendTooSoon,
    NotRegulating,
}

/// A fault of the walk. Its path starts at the value that was walked, each key with a point
/// before it, and is empty where the value itself is at fault.
#[derive(Debug, Drop)]
pub struct Fault {
    pub kind: FaultKind,
    pub path: FaultPath,
}

/// Why a walk ended early.
#[derive(Debug, Drop)]
pub enum WalkEnd {
    /// Memory ran out.
    Memory,
    /// The first fault.
    Fault(Fault),
}

impl From<AllocError> for WalkEnd {
    ghost from_gives = { λ _ e. e ≡ Memory };

    fn from(_e: AllocError) -> WalkEnd {
        WalkEnd::Memory
    }
}

impl<T: Drop> From<AllocFailed<T>> for WalkEnd {
    ghost from_gives = { λ _ e. e ≡ Memory };

    fn from(_e: AllocFailed<T>) -> WalkEnd {
        WalkEnd::Memory
    }
}

/// The place of a member in its list, between brackets.
fn push_index(bytes: &mut Vec<u8>, i: usize) -> Result<(), AllocError>
    ensures { OnOk result (bytes.new.items ≡ bytes.old.items ++ index_path i) }
{
    bytes.extend_from_slice(b"[")?;
    push_decimal(bytes, i as u64)?;
    bytes.extend_from_slice(b"]")
}

impl WalkEnd {
    ghost use Rattle.kit_walk.specs.Agreement.{EndsWithin};
    ghost use Rattle.kit_walk.specs.Answers.{EndsFile};

    /// The end, with its fault as seen from where the list that the value itself is holds what was
    /// walked.
    pub fn under_index(self, alloc: Global, i: usize) -> WalkEnd
        ensures { EndsWithin (index_path i) self result }
    {
        let WalkEnd::Fault(fault) = self else {
            return WalkEnd::Memory;
        };
        match fault.under_index(alloc, i) {
            Ok(fault) => WalkEnd::Fault(fault),
            Err(_) => WalkEnd::Memory,
        }
    }

    /// The fault of the file whose root was walked.
    pub fn of_file(self, alloc: Global) -> FileFault
        ensures ends { EndsFile self result }
        ensures json { result ≢ FileFault.NotJson }
    {
        let WalkEnd::Fault(fault) = self else {
            return FileFault::NoMemory;
        };
        match fault.of_file(alloc) {
            Ok(fault) => fault,
            Err(_) => FileFault::NoMemory,
        }
    }

    /// The end, with its fault as seen from where a key holds the value that was walked.
    pub fn under_key(self, alloc: Global, key: &str) -> WalkEnd
        ensures { EndsWithin (key_path key.now) self result }
    {
        let WalkEnd::Fault(fault) = self else {
            return WalkEnd::Memory;
        };
        match fault.under_key(alloc, key) {
            Ok(fault) => WalkEnd::Fault(fault),
            Err(_) => WalkEnd::Memory,
        }
    }

    /// The end, with its fault as seen from where the list under a key holds the value that was
    /// walked.
    pub fn under_item(self, alloc: Global, key: &str, i: usize) -> WalkEnd
        ensures { EndsWithin (item_path key.now i) self result }
    {
        let WalkEnd::Fault(fault) = self else {
            return WalkEnd::Memory;
        };
        match fault.under_item(alloc, key, i) {
            Ok(fault) => WalkEnd::Fault(fault),
            Err(_) => WalkEnd::Memory,
        }
    }
}

impl Fault {
    ghost use Rattle.kit_walk.specs.Faults.{path_text, file_fault};

    /// The fault of this kind at the value itself.
    pub fn here(alloc: Global, kind: FaultKind) -> Fault
        ensures { result ≡ record { kind = kind; path = [] } }
    {
        Fault {
            kind,
            path: FaultPath {
                bytes: Vec::new(alloc),
            },
        }
    }

    /// The fault of this kind at a key.
    pub fn at_key(alloc: Global, kind: FaultKind, key: &str) -> Result<Fault, AllocError>
        ensures { IfOk result (λ f. f ≡ record { kind = kind; path = key_path key.now }) }
    {
        let mut bytes = Vec::from_slice(alloc, b".")?;
        bytes.extend_from_slice(key.as_bytes())?;
        Ok(Fault {
            kind,
            path: FaultPath { bytes },
        })
    }

    /// The fault, as seen from where a key holds the value.
    fn under_key(self, alloc: Global, key: &str) -> Result<Fault, AllocError>
        ensures { IfOk result (λ f. f ≡
            record { kind = self.kind; path = key_path key.now ++ self.path }) }
    {
        let mut bytes = Vec::from_slice(alloc, b".")?;
        bytes.extend_from_slice(key.as_bytes())?;
        bytes.extend_from_slice(&self.path.bytes)?;
        Ok(Fault {
            kind: self.kind,
            path: FaultPath { bytes },
        })
    }

    /// The fault, as seen from where the list under a key holds the value.
    fn under_item(self, alloc: Global, key: &str, i: usize) -> Result<Fault, AllocError>
        ensures { IfOk result (λ f. f ≡
            record { kind = self.kind; path = item_path key.now i ++ self.path }) }
    {
        let mut bytes = Vec::from_slice(alloc, b".")?;
        bytes.extend_from_slice(key.as_bytes())?;
        push_index(&mut bytes, i)?;
        bytes.extend_from_slice(&self.path.bytes)?;
        Ok(Fault {
            kind: self.kind,
            path: FaultPath { bytes },
        })
    }

    /// The fault, as seen from where the list that the value itself is holds what was walked.
    fn under_index(self, alloc: Global, i: usize) -> Result<Fault, AllocError>
        ensures { IfOk result (λ f. f ≡
            record { kind = self.kind; path = index_path i ++ self.path }) }
    {
        let mut bytes = Vec::new(alloc);
        push_index(&mut bytes, i)?;
        bytes.extend_from_slice(&self.path.bytes)?;
        Ok(Fault {
            kind: self.kind,
            path: FaultPath { bytes },
        })
    }

    /// The fault of the file, where the root was walked.
    fn of_file(self, alloc: Global) -> Result<FileFault, AllocError>
        ensures { IfOk result (λ f. f ≡ file_fault self.kind (path_text self.path)) }
    {
        let bytes = match self.path.bytes.as_slice() {
            [] => Vec::from_slice(alloc, b".")?,
            [_, rest @ ..] => Vec::from_slice(alloc, rest)?,
        };
        let path = FaultPath { bytes };
        Ok(match self.kind {
            FaultKind::Missing => FileFault::Missing { path },
            FaultKind::WrongKind => FileFault::WrongKind { path },
            FaultKind::OutOfRange => FileFault::OutOfRange { path },
            FaultKind::UnknownName => FileFault::UnknownName { path },
            FaultKind::Repeated => FileFault::Repeated { path },
            FaultKind::SendTooSoon => FileFault::SendTooSoon { path },
            FaultKind::NotRegulating => FileFault::NotRegulating { path },
        })
    }
}
