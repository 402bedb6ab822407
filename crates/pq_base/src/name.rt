//! The names of generators.

ghost use Rattle.std.specs.Prelude.{◌≡◌, ◌≤◌, ℕ, IfOk, IfSome, IfNone, length};
ghost use Rattle.std.specs.List.{list_all};
ghost use Rattle.pq_base.specs.Limits.{max_name_bytes};
ghost use Rattle.pq_base.specs.Name.{is_letter, is_name_byte, is_name_text, IsName};

use crate::limits::NAME_BYTES;
use crate::refusal::NoMemory;
use arrayvec::ArrayVec;
use std::alloc::Global;
use std::marker::Model;

/// A name: a letter, then letters, digits and `_`, at most 32 bytes in all. Contracts see it as the list of its bytes.
#[derive(Debug, Drop, Eq, Hash, PartialEq)]
pub struct Name {
    bytes: ArrayVec<u8, NAME_BYTES>,
}

impl Model for Name {
    ghost use Rattle.std.specs.Prelude.{ℕ, List};
    ghost use Rattle.pq_base.specs.Name.{IsName};

    ghost Value = { List ℕ };

    ghost view = { λ n. n.bytes.items };

    ghost inverse = { λ bs. record { bytes = record { items = bs } } };

    ghost invariant = { λ n. IsName n.bytes.items };
}

impl Name {
    /// The name of these bytes, or `None` where they are no name. Takes no memory.
    pub fn of(bytes: &[u8]) -> Option<Name>
        ensures some { IfSome result (λ n. n ≡ bytes.now) }
        ensures name { IfSome result (λ n. IsName n) }
        ensures none { IfNone result (¬ IsName bytes.now) }
    {
        if bytes.len() > NAME_BYTES || !is_name_text(bytes) {
            return None;
        }
        Some(Name {
            bytes: bytes_copied(bytes),
        })
    }

    /// The bytes of the name.
    pub fn bytes(&self) -> &[u8]
        ensures value { result.now ≡ self.now }
        ensures name { IsName self.now }
    {
        self.bytes.as_slice()
    }

    /// An equal name. Takes no memory.
    pub fn duplicate(&self) -> Name
        ensures value { result ≡ self.now }
        ensures name { IsName result }
    {
        Name {
            bytes: bytes_copied(self.bytes()),
        }
    }
}

/// Equal names.
pub fn names_copied(alloc: Global, names: &[Name]) -> Result<Vec<Name>, NoMemory>
    ensures { IfOk result (λ v. v.items ≡ names.now) }
{
    let mut copies = Vec::new(alloc);
    for name in names {
        copies.push(name.duplicate())?;
    }
    Ok(copies)
}

fn bytes_copied(bytes: &[u8]) -> ArrayVec<u8, NAME_BYTES>
    requires { length bytes.now ≤ max_name_bytes }
    ensures { result.items ≡ bytes.now }
{
    let mut copy = ArrayVec::new();
    for b in bytes {
        copy.push(*b);
    }
    copy
}

/// Whether a byte is one of `A` to `Z` or `a` to `z`.
pub fn is_letter(b: u8) -> bool
    ensures { result ≡ is_letter b }
{
    matches!(b, b'A'..=b'Z' | b'a'..=b'z')
}

/// Whether a byte may stand in a name after its first: a letter, a digit or `_`.
pub fn is_name_byte(b: u8) -> bool
    ensures { result ≡ is_name_byte b }
{
    is_letter(b) || matches!(b, b'0'..=b'9' | b'_')
}

/// Whether a text has the form of a name, whatever its length.
pub fn is_name_text(text: &[u8]) -> bool
    ensures { result ≡ is_name_text text.now }
{
    match text.split_first() {
        None => false,
        Some((first, rest)) => is_letter(*first) && are_name_bytes(rest),
    }
}

fn are_name_bytes(bytes: &[u8]) -> bool
    ensures { result ≡ list_all is_name_byte bytes.now }
{
    bytes.iter().all(|b| is_name_byte(*b))
}
