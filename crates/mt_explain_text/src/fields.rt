ghost use Rattle.std.specs.Prelude.{◌≡◌, ◌+◌, ◌≤◌, ◌++◌, codes, length};
ghost use Rattle.mt_pages.specs.declared.page.TheConstants.{PAGE_LEN};
ghost use Rattle.mt_explain.specs.Lines.{why};
ghost use Rattle.mt_explain_text.specs.Text.{ahead_of, number_of, number_text, rank_of, told_text, why_text};

use itoa::Buffer;
use mt_explain::{Line, Why};
use mt_pages::Page;

/// The number from 1 of a position from 0.
pub(crate) fn number_of(position: Option<u32>) -> Option<u64>
    ensures { result ≡ number_of position }
{
    position.map(|k| u64::from(k) + 1)
}

/// A number as a field, which is empty if there is none.
fn number_field(digits: &mut Buffer, number: Option<u64>) -> &[u8]
    ensures value { result.now ≡ number_text number }
    ensures short { length result.now ≤ 64 }
{
    match number {
        Some(number) => digits.format(number).as_bytes(),
        None => b"",
    }
}

/// Adds a number as a field after a comma. The field is empty if there is no number.
pub(crate) fn push_number(page: &mut Page, number: Option<u64>)
    requires { length page.old + 65 ≤ PAGE_LEN }
    ensures field { page.new ≡ (page.old ++ codes ",") ++ number_text number }
    ensures length { length page.new ≤ length page.old + 65 }
{
    let mut digits = Buffer::new();
    page.push_field(number_field(&mut digits, number));
}

/// The same of a number that a public explanation leaves out.
pub(crate) fn push_told(page: &mut Page, is_public: bool, number: Option<u64>)
    requires { length page.old + 65 ≤ PAGE_LEN }
    ensures field { page.new ≡ (page.old ++ codes ",") ++ told_text is_public number }
    ensures length { length page.new ≤ length page.old + 65 }
{
    let told = if is_public { None } else { number };
    push_number(page, told);
}

/// The rank, from 1, that a line gives its member, if the program lists it.
pub(crate) fn rank_of(line: &Line) -> Option<u64>
    ensures { result ≡ rank_of line.now }
{
    line.prospect.map(|it| u64::from(it.rank) + 1)
}

/// How many are ahead of the member of a line.
pub(crate) fn ahead_of(line: &Line) -> Option<u64>
    ensures { result ≡ ahead_of line.now }
{
    line.prospect.map(|it| u64::from(it.ahead))
}

/// The word for why the program of a line would take the member, or wouldn't.
pub(crate) fn why_field(line: &Line) -> &'static [u8]
    ensures value { result.now ≡ why_text (why line.now.quota line.now.prospect) }
    ensures short { length result.now ≤ 64 }
{
    why_word(line.why())
}

/// The word for why.
fn why_word(why: Why) -> &'static [u8]
    ensures value { result.now ≡ why_text why }
    ensures short { length result.now ≤ 64 }
{
    match why {
        Why::Unlisted => b"unlisted",
        Why::Full => b"full",
        Why::Open => b"open",
    }
}
