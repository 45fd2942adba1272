ghost use Rattle.std.specs.Prelude.{◌≡◌, ◌+◌, ◌<◌, ◌≤◌, ◌^◌, drop, length, option_map, take};
ghost use Rattle.mt_lists.specs.Rows.{fields_left};
ghost use Rattle.mt_fault_terms.specs.Faults.{placed_from};
ghost use Rattle.mt_terms.specs.Lists.{head};

use mt_lists::Fields;

/// A field with its number in its record, from 1.
#[derive(Clone, Copy)]
pub(crate) struct Field<'a> {
    pub(crate) number: usize,
    pub(crate) bytes: &'a [u8],
}

/// Fields of a record in turn, each with its number.
#[derive(Clone, Copy)]
pub(crate) struct Placed<'a> {
    fields: Fields<'a>,
    // How many of the fields have yet to come.
    count: usize,
    // The number of the field before them.
    before: usize,
    pub ghost enough: { count ≤ length (fields_left fields) },
    pub ghost fits: { before + count < 2 ^ 64 },
}

impl<'a> Placed<'a> {
    ghost use Rattle.mt_faults.specs.Seen.{field_seen, placed_left};

    /// All fields of a record.
    pub(crate) fn of(fields: Fields<'a>) -> Placed<'a>
        ensures { placed_left result ≡ placed_from 1 (fields_left fields.entry) }
    {
        let count = fields.len();
        Placed {
            fields,
            count,
            before: 0,
        }
    }

    /// How many fields have yet to come.
    pub(crate) fn len(&self) -> usize
        ensures { result ≡ length (placed_left self.now) }
    {
        self.count
    }

    /// The first of the fields, as many as this.
    pub(crate) fn first(&self, count: usize) -> Placed<'a>
        ensures { placed_left result ≡ take count (placed_left self.now) }
    {
        Placed {
            fields: self.fields,
            count: count.min(self.count),
            before: self.before,
        }
    }

    /// The next field.
    pub(crate) fn head(&self) -> Option<Field<'a>>
        ensures { option_map field_seen result ≡ head (placed_left self.now) }
    {
        let mut rest = *self;
        rest.next()
    }

    /// The fields after the next one.
    pub(crate) fn tail(&self) -> Placed<'a>
        ensures { placed_left result ≡ drop 1 (placed_left self.now) }
    {
        let mut rest = *self;
        rest.next();
        rest
    }
}

impl<'a> Iterator for Placed<'a> {
    ghost use Rattle.std.specs.Iterator.{YieldsFirstBy, item_count};
    ghost use Rattle.mt_faults.specs.Seen.{field_seen, placed_left};

    type Item = Field<'a>;

    ghost next_gives = { YieldsFirstBy field_seen placed_left };

    ghost remaining = { item_count placed_left };

    fn next(&mut self) -> Option<Field<'a>> {
        if self.count == 0 {
            return None;
        }
        let mut fields = self.fields;
        let bytes = fields.next()?;
        let number = self.before + 1;
        *self = Placed {
            fields,
            count: self.count - 1,
            before: number,
        };
        Some(Field { number, bytes })
    }
}

/// Fields two by two. The last one is left out if it has no partner.
#[derive(Clone, Copy)]
pub(crate) struct PlacedPairs<'a> {
    pub(crate) fields: Placed<'a>,
}

impl<'a> Iterator for PlacedPairs<'a> {
    ghost use Rattle.std.specs.Iterator.{YieldsFirstBy, item_count};
    ghost use Rattle.mt_faults.specs.Seen.{both_seen, pairs_left};

    type Item = (Field<'a>, Field<'a>);

    ghost next_gives = { YieldsFirstBy both_seen pairs_left };

    ghost remaining = { item_count pairs_left };

    fn next(&mut self) -> Option<(Field<'a>, Field<'a>)> {
        let first = self.fields.next()?;
        let second = self.fields.next()?;
        Some((first, second))
    }
}
