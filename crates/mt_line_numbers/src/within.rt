ghost use Rattle.std.specs.Prelude.{◌≡◌, MatchOption, true, false};
ghost use Rattle.csv.specs.Machine.{is_end, step};
ghost use Rattle.csv.specs.Reading.{default_config};
ghost use Rattle.mt_lists.specs.Lines.{ends_line};
ghost use Rattle.mt_line_numbers.specs.Within.{state_of};

/// Where a byte comes in a record.
#[derive(Clone, Copy)]
pub(crate) enum Within {
    FieldStart,
    Field,
    Quotes,
    // After a quote in quotes, which ends them unless another one follows.
    AfterQuote,
}

impl Within {
    // Where the next byte comes, or none if this byte is the line end after the record.
    pub(crate) fn after(self, byte: u8) -> Option<Within>
        ensures { let next = step default_config (state_of self) byte in
            MatchOption result ((is_end next.1 ≡ true) × (ends_line byte ≡ true))
            (λ within. (is_end next.1 ≡ false) × (next.0 ≡ state_of within)) }
    {
        match (self, byte) {
            (Within::Quotes, b'"') => Some(Within::AfterQuote),
            (Within::Quotes, _) => Some(Within::Quotes),
            (Within::FieldStart | Within::AfterQuote, b'"') => Some(Within::Quotes),
            (_, b',') => Some(Within::FieldStart),
            (_, b'\n' | b'\r') => None,
            (_, _) => Some(Within::Field),
        }
    }
}
