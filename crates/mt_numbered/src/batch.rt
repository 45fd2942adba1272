//! Fields of a list that are looked up together.
ghost use Rattle.std.specs.Prelude.{◌≡◌, ◌<◌, ◌≤◌, ◌++◌, [], length, map, take};
ghost use Rattle.mt_lists.specs.Rows.{fields_left};
ghost use Rattle.mt_numbered.specs.Batches.{place_among};

use crate::numbered::Numbered;
use mt_id_lists::Number;
use mt_lists::Fields;

/// How many fields are looked up together, at most. A processor loads what one of them needs while it waits for another.
pub(crate) const AT_ONCE: usize = 16;

/// Takes the next fields, no more than `most`, and gives how many there are.
pub(crate) fn take_fields<'f>(
    rest: &mut Fields<'f>,
    most: usize,
    fields: &mut [&'f [u8]; AT_ONCE],
) -> usize
    ensures few { result ≤ 16 }
    ensures most { result ≤ most }
    ensures taken { fields_left rest.old ≡ map (λ f. f.now) (take result fields.new) ++ fields_left rest.new }
    ensures none { 0 < most → result ≡ 0 → fields_left rest.old ≡ [] }
{
    let most = most.min(AT_ONCE);
    let mut count = 0;
    while count < most {
        let Some(field) = rest.next() else {
            return count;
        };
        fields[count] = field;
        count += 1;
    }
    count
}

/// Looks up fields among ids, and keeps the place of each at the front of these.
pub(crate) fn find_places<T: Number>(
    ids: &Numbered<'_, T>,
    fields: &[&[u8]],
    places: &mut [Option<usize>; AT_ONCE],
)
    requires { length fields.now ≤ 16 }
    ensures { take (length fields.now) places.new ≡ map (λ f. place_among ids.now.ids f.now) fields.now }
{
    for i in 0..fields.len() {
        places[i] = ids.place(fields[i]);
    }
}
