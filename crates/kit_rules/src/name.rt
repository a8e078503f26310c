ghost use Rattle.std.specs.Prelude.{◌≡◌, ◌↔◌, IsTrue, IfOk, All};
ghost use Rattle.std.specs.List.{list_all};
ghost use Rattle.kit_rules.specs.Names.{IsNameByte, IsName, is_name_byte, is_name};

use std::alloc::{AllocError, Global};
use std::marker::Model;

/// A name, which contracts see as the list of its bytes. What a
/// federation asks of it, [`is_name`] tests.
#[derive(Debug, Drop)]
pub struct Name {
    bytes: Vec<u8>,
}

/// The most bytes of a name.
pub const MOST_NAME_BYTES: usize = 16;

/// Whether a byte is an ASCII letter or digit, `_` or `-`.
fn is_name_byte(b: u8) -> bool
    ensures value { result ≡ is_name_byte b }
    ensures form { IsTrue result ↔ IsNameByte b }
{
    b.is_ascii_lowercase() || b.is_ascii_uppercase() || b.is_ascii_digit() || b == b'_' || b == b'-'
}

fn are_name_bytes(bytes: &[u8]) -> bool
    ensures value { result ≡ list_all is_name_byte bytes.now }
    ensures form { IsTrue result ↔ All IsNameByte bytes.now }
{
    bytes.iter().all(|b| is_name_byte(*b))
}

/// Whether bytes have the form of a name in a federation: 1 to 16 ASCII letters, digits, `_` and
/// `-`.
pub fn is_name(bytes: &[u8]) -> bool
    ensures value { result ≡ is_name bytes.now }
    ensures form { IsTrue result ↔ IsName bytes.now }
{
    1 <= bytes.len() && bytes.len() <= MOST_NAME_BYTES && are_name_bytes(bytes)
}

impl Model for Name {
    ghost use Rattle.std.specs.Prelude.{List, ℕ};

    ghost Value = { List ℕ };

    ghost view = { λ n. n.bytes.items };
}

impl Name {
    /// The name with these bytes. It fails only for want of memory.
    pub fn of(alloc: Global, bytes: &[u8]) -> Result<Name, AllocError>
        ensures { IfOk result (λ name. name ≡ bytes.now) }
    {
        Ok(Name {
            bytes: Vec::from_slice(alloc, bytes)?,
        })
    }

    /// Its bytes.
    pub fn bytes(&self) -> &[u8]
        ensures { result.now ≡ self.now }
    {
        &self.bytes
    }

    /// Whether two names have the same bytes.
    pub fn is_same(&self, other: &Name) -> bool
        ensures { IsTrue result ↔ (self.now ≡ other.now) }
    {
        self.bytes.as_slice() == other.bytes.as_slice()
    }
}
