//! Ids as numbers, which tables compare in place of their bytes.
ghost use Rattle.std.specs.Prelude.{◌≡◌, ◌<◌, ◌≤◌, ◌+◌, ◌^◌, length};
ghost use Rattle.mt_ids.specs.Words.{four_from, seven_from, bytes_of, place_word, IsWordOf, IsPairOf};

/// The most bytes of an id that has a word.
pub(crate) const MOST_IN_WORD: usize = 7;

/// The most bytes of an id that has a pair of words.
pub(crate) const MOST_IN_PAIR: usize = 15;

/// Four bytes of an id from a place on, as a number.
fn four(bytes: &[u8], at: usize) -> u64
    requires { at + 4 ≤ length bytes.now }
    ensures value { result ≡ four_from bytes.now at }
    ensures bound { result < 2 ^ 32 }
{
    u64::from(u32::from_le_bytes([bytes[at], bytes[at + 1], bytes[at + 2], bytes[at + 3]]))
}

/// Four bytes of an id from a place on and its last three, as a number.
fn seven(id: &[u8], at: usize) -> u64
    requires { at + 4 ≤ length id.now }
    ensures value { result ≡ seven_from id.now at }
    ensures bound { result < 2 ^ 56 }
{
    four(id, at) | (four(id, id.len() - 4) >> 8) << 32
}

/// The bytes of an id of at most seven as a number, by reads that may overlap.
fn bytes_of(id: &[u8]) -> u64
    requires { length id.now ≤ 7 }
    ensures value { result ≡ bytes_of id.now }
    ensures bound { result < 2 ^ 56 }
{
    let len = id.len();
    if len >= 4 {
        seven(id, 0)
    } else if len > 0 {
        u64::from(id[0]) | u64::from(id[len / 2]) << 8 | u64::from(id[len - 1]) << 16
    } else {
        0
    }
}

/// The word of an id of at most seven bytes: no other such id has it.
pub(crate) fn word_of(id: &[u8]) -> u64
    requires { length id.now ≤ 7 }
    ensures { IsWordOf id.now result }
{
    bytes_of(id) | (id.len() as u64) << 56
}

/// What stands for the word of a longer id: its place among the longer ones, below a length that no word has.
pub(crate) fn place_word(place: usize) -> u64
    requires { place < 2 ^ 63 }
    ensures { result ≡ place_word place }
{
    place as u64 + (8 << 56)
}

/// The pair of words of an id of eight to fifteen bytes: no other such id has it.
pub(crate) fn pair_of(id: &[u8]) -> (u64, u64)
    requires middle { 7 < length id.now }
    requires short { length id.now ≤ 15 }
    ensures { IsPairOf id.now result }
{
    let len = id.len();
    let first = four(id, 0) | four(id, 4) << 32;
    (first, seven(id, len - 7) | (len as u64) << 56)
}
