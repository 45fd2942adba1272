ghost use Rattle.std.specs.Prelude.{◌≡◌, [], ◌∷◌, ◌+◌, ◌≤◌, ◌++◌, codes, decimal, length, IfOk};
ghost use Rattle.mt_pages.specs.declared.page.TheConstants.{PAGE_LEN};
ghost use Rattle.mt_terms.specs.Text.{name_among, refusals};
ghost use Rattle.mt_fault_text.specs.Pieces.{code_front, fault_front, record_front};

use itoa::Buffer;
use mt_pages::Page;
use mt_report::code_name;
use mt_terms::codes;
use std::alloc::{AllocError, Global};
use std::marker::Model;

/// The name of a fault's code, and nothing for any other code.
pub(crate) fn fault_name(code: u16) -> &'static [u8]
    ensures name { result.now ≡ name_among refusals code }
    ensures short { length result.now ≤ 16 }
{
    match code {
        codes::TOO_LARGE..=codes::NOT_REGISTERED
        | codes::OUT_OF_MEMORY
        | codes::READ_FAULT
        | codes::BUDGET_SPENT => code_name(code),
        _ => b"",
    }
}

/// Adds a number as a field after a comma.
pub(crate) fn push_number(page: &mut Page, number: u64)
    requires { length page.old + 65 ≤ PAGE_LEN }
    ensures field { page.new ≡ (page.old ++ codes ",") ++ decimal number }
    ensures length { length page.new ≤ length page.old + 65 }
{
    let mut digits = Buffer::new();
    page.push_field(digits.format(number).as_bytes());
}

/// Adds the digits of a number.
pub(crate) fn push_digits(page: &mut Page, number: u64)
    requires { length page.old + 64 ≤ PAGE_LEN }
    ensures digits { page.new ≡ page.old ++ decimal number }
    ensures length { length page.new ≤ length page.old + 64 }
{
    let mut digits = Buffer::new();
    page.push(digits.format(number).as_bytes());
}

/// Puts the front of the lines of faults with a code on a page, in place of what is on it.
fn begin(page: &mut Page, code: u16)
    ensures text { page.new ≡ code_front code }
    ensures short { length page.new ≤ 128 }
{
    page.clear();
    page.push(b"check,1,fault");
    push_number(page, u64::from(code));
    page.push_field(fault_name(code));
    page.push(b",");
}

/// Puts the front of a code's lines on a page, in place of what is on it. The numbers of a record and of the line on
/// which it begins come after it.
fn go_on(page: &mut Page, of_code: &Page, number: u64, line: u64)
    requires { length of_code.now ≤ 128 }
    ensures text { page.new ≡ of_code.now ++ record_front number line }
    ensures short { length page.new ≤ 258 }
{
    page.clear();
    page.push(of_code.as_bytes());
    push_digits(page, number);
    push_number(page, line);
    page.push(b",");
}

/// The front of a fault's line, as far as the number of the field. Faults of one code in one record share it.
#[derive(Drop)]
pub(crate) struct Front {
    // The front of the lines of faults with the code.
    of_code: Page,
    whole: Page,
    code: u16,
    number: u64,
    line: u64,
}

impl Model for Front {
    ghost use Rattle.std.specs.Prelude.{ℕ, List};
    ghost use Rattle.mt_fault_text.specs.Fronts.{AreFronts};

    ghost Value = { List ℕ };

    ghost view = { λ front. front.whole };

    ghost invariant = { λ f. AreFronts f.of_code f.whole f.code f.number f.line };
}

impl Front {
    /// The front of the line of a fault that is at no record. The error is want of memory.
    pub(crate) fn new(alloc: Global, code: u16) -> Result<Self, AllocError>
        ensures { IfOk result (λ front. front ≡ fault_front code 0 0) }
    {
        let mut of_code = Page::new(alloc)?;
        let mut whole = Page::new(alloc)?;
        begin(&mut of_code, code);
        go_on(&mut whole, &of_code, 0, 0);
        Ok(Front {
            of_code,
            whole,
            code,
            number: 0,
            line: 0,
        })
    }

    /// The bytes of the front.
    pub(crate) fn as_bytes(&self) -> &[u8]
        ensures bytes { result.now ≡ self.now }
        ensures short { length result.now ≤ 258 }
    {
        self.whole.as_bytes()
    }

    /// Makes it the front of the lines of faults with a code in the record with a number, which begins on a line.
    pub(crate) fn set(&mut self, code: u16, number: u64, line: u64)
        ensures { self.new ≡ fault_front code number line }
    {
        if self.code == code && self.number == number && self.line == line {
            return;
        }
        if self.code != code {
            begin(&mut self.of_code, code);
            self.code = code;
        }
        go_on(&mut self.whole, &self.of_code, number, line);
        self.number = number;
        self.line = line;
    }
}
