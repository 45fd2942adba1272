ghost use Rattle.std.specs.Prelude.{◌≡◌, ◌≤◌, ◌<◌, ◌^◌, ◌&&◌, true, nat_lt, nat_le, length};
ghost use Rattle.std.specs.List.{list_all};
ghost use Rattle.std.specs.Char.{is_ascii_digit};
ghost use Rattle.std.specs.Str.Parse.{digits_value};
ghost use Rattle.mt_terms.specs.Registration.Ids.{is_id_byte, is_id, is_dash, quota_of};

/// Whether a byte may be in an id: an ASCII letter or digit, or one of `.`, `_`, `:` and `-`.
fn may_stand(byte: u8) -> bool
    ensures { result ≡ is_id_byte byte }
{
    matches!(byte, b'a'..=b'z' | b'0'..=b':' | b'A'..=b'Z' | b'-' | b'.' | b'_')
}

/// Whether a field is the single `-`.
pub fn is_dash(field: &[u8]) -> bool
    ensures { result ≡ is_dash field.now }
{
    field == b"-".as_slice()
}

/// Whether each byte of a field may be in an id.
fn may_all_stand(field: &[u8]) -> bool
    ensures { result ≡ list_all is_id_byte field.now }
{
    field.iter().all(|byte| may_stand(*byte))
}

/// Whether a field is an id of at most `most` bytes.
pub fn is_id(most: usize, field: &[u8]) -> bool
    ensures { result ≡ is_id most field.now }
{
    let is_sized = !field.is_empty() && field.len() <= most;
    is_sized && may_all_stand(field) && !is_dash(field)
}

/// Whether each byte of a field is a digit.
pub fn are_digits(field: &[u8]) -> bool
    ensures { result ≡ list_all is_ascii_digit field.now }
{
    field.iter().all(|byte| byte.is_ascii_digit())
}

/// The number that at most ten digits write.
pub fn value_of(digits: &[u8]) -> u64
    requires short { length digits.now ≤ 10 }
    requires digits { list_all is_ascii_digit digits.now ≡ true }
    ensures { result ≡ digits_value 10 digits.now }
{
    let mut value = 0;
    for digit in digits {
        value = value * 10 + u64::from(*digit - b'0');
    }
    value
}

/// Whether a field has one to four bytes, each of them a digit.
fn is_quota(field: &[u8]) -> bool
    ensures { result ≡ (nat_lt 0 (length field.now) && nat_le (length field.now) 4 && list_all is_ascii_digit field.now) }
{
    let is_sized = !field.is_empty() && field.len() <= 4;
    is_sized && are_digits(field)
}

/// The quota that a field writes: one to four digits.
pub fn parse_quota(field: &[u8]) -> Option<u32>
    ensures { result ≡ quota_of field.now }
{
    if is_quota(field) {
        Some(value_of(field) as u32)
    } else {
        None
    }
}
