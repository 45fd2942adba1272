ghost use Rattle.std.specs.Prelude.{◌≡◌};
ghost use Rattle.mt_lists.specs.Records.{without_mark};
ghost use Rattle.mt_line_numbers.specs.Records.{line_of_record};

use crate::place::Place;
use std::marker::Model;

/// The numbers of the lines on which the records of a text begin. It goes along with the records. So it takes linear
/// time for all of them if they are asked for in order. It takes no memory.
#[derive(Drop)]
pub struct LineNumbers<'t> {
    text: &'t [u8],
    // Where the record after the first `passed` begins.
    place: Place<'t>,
    passed: u64,
}

impl<'t> Model for LineNumbers<'t> {
    ghost use Rattle.std.specs.Prelude.{List, ℕ};
    ghost use Rattle.mt_line_numbers.specs.Inside.{IsAtRecord};

    ghost Value = { List ℕ };

    ghost view = { λ numbers. numbers.text.now };

    ghost invariant = { λ numbers. IsAtRecord numbers.text.now numbers.passed numbers.place };
}

// The byte order mark, U+FEFF in UTF-8.
const MARK: [u8; 3] = [0xEF, 0xBB, 0xBF];

impl<'t> LineNumbers<'t> {
    /// The line numbers of an input's text, which has lost the byte order mark at its start.
    pub fn new(bytes: &'t [u8]) -> LineNumbers<'t>
        ensures { result ≡ without_mark bytes.now }
    {
        match bytes.strip_prefix(MARK.as_slice()) {
            Some(text) => LineNumbers::at_start(text),
            None => LineNumbers::at_start(bytes),
        }
    }

    // The line numbers of a text.
    fn at_start(text: &'t [u8]) -> LineNumbers<'t>
        ensures { result ≡ text.now }
    {
        LineNumbers {
            text,
            place: Place::at_start(text),
            passed: 0,
        }
    }

    /// The number of the line on which the record with this number begins. Lines and records are counted from 1, and
    /// records as the rows of the input are. At 0 it gives 0, and after the last record the line of the text's end. If
    /// it has passed that record, it begins again at the start of the text.
    pub fn line_of(&mut self, number: u64) -> u64
        ensures line { result ≡ line_of_record self.old number }
        ensures text { self.new ≡ self.old }
    {
        if number == 0 {
            return 0;
        }
        let before = number - 1;
        if before < self.passed {
            self.place = Place::at_start(self.text);
            self.passed = 0;
        }
        while self.passed < before && !self.place.is_at_end() {
            self.place = self.place.next_record();
            self.passed += 1;
        }
        self.place.line
    }
}
