ghost use Rattle.std.specs.Prelude.{◌≡◌, ◌≤◌, length};

use std::marker::Model;

/// An id, or no byte if there is none. It has 64 bytes at most.
#[derive(Debug, Drop)]
pub struct IdText {
    bytes: [u8; 64],
    len: usize,
}

impl Model for IdText {
    ghost use Rattle.std.specs.Prelude.{ℕ, List, take, ◌≤◌};

    ghost Value = { List ℕ };

    ghost view = { λ text. take text.len text.bytes };

    ghost invariant = { λ text. text.len ≤ 64 };
}

impl IdText {
    ghost use Rattle.std.specs.Prelude.{[]};

    /// No id.
    pub fn empty() -> Self
        ensures { result ≡ [] }
    {
        IdText {
            bytes: [0; 64],
            len: 0,
        }
    }

    /// A copy of an id that has 64 bytes at most.
    pub fn new(id: &[u8]) -> Self
        requires { length id.now ≤ 64 }
        ensures { result ≡ id.now }
    {
        let mut bytes = [0; 64];
        bytes[..id.len()].copy_from_slice(id);
        IdText {
            bytes,
            len: id.len(),
        }
    }

    /// The id's bytes: none if there is no id.
    pub fn as_bytes(&self) -> &[u8]
        ensures bytes { result.now ≡ self.now }
        ensures short { length self.now ≤ 64 }
    {
        &self.bytes[..self.len]
    }
}

/// Why there is no match. It has the code and the number of the record at fault, from 1, or 0 if there is none. It
/// also has the id at fault, if there is one.
#[derive(Debug, Drop)]
pub struct Refusal {
    /// The code, one of [`codes`](crate::codes).
    pub code: u16,
    /// The number of the record.
    pub row: u64,
    /// The id.
    pub id: IdText,
}

impl Refusal {
    ghost use Rattle.std.specs.Prelude.{[], IsTrue};
    ghost use Rattle.mt_terms.specs.Text.{is_known_code, IsNamedRefusal};

    /// A refusal that no record is at.
    pub fn alone(code: u16) -> Self
        requires { IsTrue (is_known_code code) }
        ensures named { IsNamedRefusal result.code result.row result.id }
        ensures code { result.code ≡ code }
        ensures row { result.row ≡ 0 }
        ensures id { result.id ≡ [] }
    {
        Refusal {
            code,
            row: 0,
            id: IdText::empty(),
        }
    }
}
