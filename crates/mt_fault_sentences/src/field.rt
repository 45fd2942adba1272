/// What to do about a field that has a comma or a line end.
pub(crate) const QUOTED: &[u8] =
    b"quotes make it one field: remove the quotes, or close the one that is open";

/// Whether a field has a comma or a line end. Only a field in quotes has one.
pub(crate) fn is_from_quotes(field: &[u8]) -> bool {
    field.contains(&b',') || field.contains(&b'\n') || field.contains(&b'\r')
}

/// Whether a field begins as a comment of another language.
pub(crate) fn is_comment(field: &[u8]) -> bool {
    let text = field.trim_ascii();
    text.starts_with(b"#") || text.starts_with(b"//")
}

/// The name of what may separate fields in place of commas, if a field has it. Blanks at its ends separate nothing.
pub(crate) fn separators(field: &[u8]) -> Option<&'static [u8]> {
    let text = field.trim_ascii();
    if text.contains(&b';') {
        Some(b"semicolons")
    } else if text.contains(&b'\t') {
        Some(b"tabs")
    } else if text.contains(&b'|') {
        Some(b"bars")
    } else if text.contains(&b' ') {
        Some(b"blanks")
    } else {
        None
    }
}

/// The kind that a word means, but for blanks around it and capital letters.
pub(crate) fn meant(word: &[u8]) -> Option<&'static [u8]> {
    let trimmed = word.trim_ascii();
    if trimmed.eq_ignore_ascii_case(b"program") {
        Some(b"program")
    } else if trimmed.eq_ignore_ascii_case(b"applicant") {
        Some(b"applicant")
    } else if trimmed.eq_ignore_ascii_case(b"couple") {
        Some(b"couple")
    } else if trimmed.eq_ignore_ascii_case(b"withdraw") {
        Some(b"withdraw")
    } else {
        None
    }
}

/// A field without the byte order mark of UTF-8 at its start.
pub(crate) fn without_mark(field: &[u8]) -> &[u8] {
    if field.starts_with(&[0xEF, 0xBB, 0xBF]) {
        &field[3..]
    } else {
        field
    }
}

/// Whether a field begins with a byte order mark of UTF-8.
pub(crate) fn has_mark_before(field: &[u8]) -> bool {
    without_mark(field).len() < field.len()
}

/// The name of a character that isn't seen, if a field has one.
pub(crate) fn unseen(field: &[u8]) -> Option<&'static [u8]> {
    if has_no_break_space(field) {
        Some(b"no-break space")
    } else if field.windows(3).any(is_mark) {
        Some(b"byte order mark")
    } else if field.windows(3).any(is_zero_width) {
        Some(b"zero-width space")
    } else {
        None
    }
}

/// Whether a field has a no-break space: U+00A0, in UTF-8 or in Latin-1.
fn has_no_break_space(field: &[u8]) -> bool {
    field.last() == Some(&0xA0)
        || field.first() == Some(&0xA0)
        || field.windows(2).any(|two| two == [0xC2, 0xA0].as_slice())
}

/// Whether three bytes are a byte order mark of UTF-8.
fn is_mark(three: &[u8]) -> bool {
    three == [0xEF, 0xBB, 0xBF].as_slice()
}

/// Whether three bytes are U+200B, U+200C, U+200D or U+2060 in UTF-8.
fn is_zero_width(three: &[u8]) -> bool {
    three == [0xE2, 0x80, 0x8B].as_slice()
        || three == [0xE2, 0x80, 0x8C].as_slice()
        || three == [0xE2, 0x80, 0x8D].as_slice()
        || three == [0xE2, 0x81, 0xA0].as_slice()
}

/// Whether a field has a Latin letter that isn't ASCII, or an accent of its own, in UTF-8.
pub(crate) fn has_accent(field: &[u8]) -> bool {
    field.windows(2).any(is_accented)
}

/// Whether two bytes are U+00C0 to U+024F but for the signs of times and division, or an accent from U+0300 on.
fn is_accented(two: &[u8]) -> bool {
    let (Some(first), Some(second)) = (two.first(), two.last()) else {
        return false;
    };
    let is_letter = match *first {
        0xC3 => *second != 0x97 && *second != 0xB7,
        0xC4..=0xC9 | 0xCC | 0xCD => true,
        _ => false,
    };
    is_letter && (0x80..=0xBF).contains(second)
}
