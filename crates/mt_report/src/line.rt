ghost use Rattle.std.specs.Prelude.{◌≡◌, ◌∷◌, ◌+◌, ◌≤◌, ◌++◌, map, length, take};
ghost use Rattle.mt_terms.specs.Text.{line};

/// Writes the line of a first field and those after it at the start of a buffer, which has room for it. It gives the
/// number of the line's bytes, its line feed included.
pub fn write_line(buffer: &mut [u8], first: &[u8], fields: &[&[u8]]) -> usize
    requires { length (line (first.now ∷ map (λ field. field.now) fields.now)) ≤ length buffer.old }
    ensures text { take result buffer.new ≡ line (first.now ∷ map (λ field. field.now) fields.now) }
    ensures within { result ≤ length buffer.old }
{
    let mut end = put(buffer, 0, first);
    for field in fields {
        end = put(buffer, end, b",");
        end = put(buffer, end, field);
    }
    put(buffer, end, b"\n")
}

// Writes bytes at a place of a buffer, which has room for them. It gives the place after them.
fn put(buffer: &mut [u8], at: usize, bytes: &[u8]) -> usize
    requires { at + length bytes.now ≤ length buffer.old }
    ensures end { result ≡ at + length bytes.now }
    ensures text { take result buffer.new ≡ take at buffer.old ++ bytes.now }
    ensures len { length buffer.new ≡ length buffer.old }
{
    let end = at + bytes.len();
    buffer[at..end].copy_from_slice(bytes);
    end
}
