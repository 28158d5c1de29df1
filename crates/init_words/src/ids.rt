//! Ids of inittab entries.

ghost use Rattle.std.specs.Prelude.{◌≡◌, ◌≤◌, ◌-◌, ◌++◌, length, replicate, IsTrue};
ghost use Rattle.std.specs.List.{list_all};
ghost use Rattle.init_words.specs.Ids.{is_id, is_id_byte, id_read};

use std::hash::{Hash, Hasher};
use std::marker::Model;
use std::{fmt, str};

/// The maximum length of an id in bytes.
pub const ID_LIMIT: usize = 8;

/// The id of an inittab entry: 1 to 8 bytes from 33 to 126, without a colon, the first not `#` (inittab(5)).
#[derive(Clone, Copy)]
pub struct Id {
    bytes: [u8; ID_LIMIT],
    len: usize,
}

impl Model for Id {
    ghost use Rattle.std.specs.Prelude.{◌≡◌, ◌≤◌, ◌-◌, ◌++◌, ℕ, List, length, take, drop, replicate, true};
    ghost use Rattle.init_words.specs.declared.ids.TheConstants.{ID_LIMIT};
    ghost use Rattle.init_words.specs.Padded.{take-padded, length-front};
    ghost use Rattle.init_words.specs.Ids.{is_id};

    ghost Value = { List ℕ };

    ghost view = { λ a. take a.len a.bytes };

    ghost invariant = { λ a. (a.len ≤ ID_LIMIT) × (length a.bytes ≡ ID_LIMIT)
        × (drop a.len a.bytes ≡ replicate (ID_LIMIT - a.len) 0)
        × (is_id (take a.len a.bytes) ≡ true) };

    ghost inverse = { λ xs. record {
      bytes = xs ++ replicate (ID_LIMIT - length xs) 0;
      len = length xs;
    } };

    ghost inverse_ok = { λ a h i. record {
      bytes = take-padded ID_LIMIT 0 a.len a.bytes h.0 h.1 h.2 i;
      len = length-front ID_LIMIT a.len a.bytes h.0 h.1 i;
    } };
}

impl Id {
    ghost use Rattle.std.specs.Prelude.{true};

    /// Returns the id with these bytes, or `None` if they are not an id.
    pub fn read(text: &[u8]) -> Option<Id>
        ensures { result ≡ id_read text.now }
    {
        if !is_id(text) {
            return None;
        }
        Some(Id {
            bytes: padded(text),
            len: text.len(),
        })
    }

    /// Returns the bytes of the id, 1 to 8 of them.
    pub fn as_bytes(&self) -> &[u8]
        ensures value { result.now ≡ self.now }
        ensures valid { is_id self.now ≡ true }
    {
        &self.bytes[..self.len]
    }

    /// Returns the id as text. It is always valid UTF-8, because its bytes are ASCII.
    pub fn as_str(&self) -> &str
        ensures { result.now ≡ self.now }
    {
        match str::from_utf8(self.as_bytes()) {
            Ok(text) => text,
            Err(_) => unreachable!(),
        }
    }
}

impl fmt::Debug for Id {
    fn fmt<W: fmt::Write>(&self, f: &mut fmt::Formatter<W>) -> fmt::Result {
        f.write_str(self.as_str())
    }
}

impl PartialEq for Id {
    ghost use Rattle.std.specs.Prelude.{◌==◌};
    ghost use Rattle.std.specs.Cmp.{partial_equiv_from_equiv};
    ghost use Rattle.std.specs.Cmp.Lexicographic.{pointwise, nat_list_eq_equiv};

    ghost eq = { pointwise ◌==◌ };

    ghost laws = { partial_equiv_from_equiv nat_list_eq_equiv };

    fn eq(&self, other: &Id) -> bool {
        self.as_bytes() == other.as_bytes()
    }
}

impl Eq for Id {
    ghost use Rattle.std.specs.Cmp.Lexicographic.{nat_list_eq_equiv};

    ghost laws = { nat_list_eq_equiv };
}

impl Hash for Id {
    ghost use Rattle.std.specs.Hash as fed;
    ghost use Rattle.std.specs.Cmp.Rules.{hashing};
    ghost use Rattle.std.proofs.Common.{rules};

    ghost hash_input = { λ xs. fed.str xs };

    ghost respects_eq = { Prim.search (hashing, rules) };

    fn hash<H: Hasher>(&self, state: &mut H) {
        state.write(self.as_bytes());
        state.write_u8(0xff);
    }
}

fn is_id_byte(byte: u8) -> bool
    ensures { result ≡ is_id_byte byte }
{
    (33..=126).contains(&byte) && byte != b':'
}

fn is_all_id_bytes(text: &[u8]) -> bool
    ensures { result ≡ list_all is_id_byte text.now }
{
    text.iter().all(|byte| is_id_byte(*byte))
}

fn is_id(text: &[u8]) -> bool
    ensures { result ≡ is_id text.now }
{
    if text.is_empty() || text.len() > ID_LIMIT {
        return false;
    }
    if text[0] == b'#' {
        return false;
    }
    is_all_id_bytes(text)
}

/// Returns the text, padded with zeros to N bytes.
fn padded<const N: usize>(text: &[u8]) -> [u8; N]
    requires { length text.now ≤ N }
    ensures { result ≡ text.now ++ replicate (N - length text.now) 0 }
{
    let mut bytes = [0; N];
    bytes[..text.len()].copy_from_slice(text);
    bytes
}
