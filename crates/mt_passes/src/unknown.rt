ghost use Rattle.std.specs.Prelude.{◌≡◌, option_to_list};
ghost use Rattle.std.specs.List.{flat_map};
ghost use Rattle.std.specs.Option.{option_copied};
ghost use Rattle.mt_lists.specs.Rows.{fields_left};
ghost use Rattle.mt_terms.specs.Registration.Passes.{first_not_in, named};
ghost use Rattle.mt_records.specs.Fields.{pair_seen, pairs_left};

use mt_ids::IdTable;
use mt_lists::Fields;
use mt_records::Pairs;

/// The first id of a list that is none of these.
pub(crate) fn first_unknown<'a>(all: &IdTable<'_>, list: Fields<'a>) -> Option<&'a [u8]>
    ensures { option_copied result ≡ first_not_in all.now (fields_left list.entry) }
{
    for id in list {
        if !all.contains(id) {
            return Some(id);
        }
    }
    None
}

/// The id of a place that is none of these.
fn unknown_place<'a>(all: &IdTable<'_>, place: Option<&'a [u8]>) -> Option<&'a [u8]>
    ensures { option_copied result
        ≡ first_not_in all.now (option_to_list (option_copied place.entry)) }
{
    let id = place?;
    if all.contains(id) { None } else { Some(id) }
}

/// The first id of a pair that is none of these.
fn unknown_of_pair<'a>(
    all: &IdTable<'_>,
    pair: (Option<&'a [u8]>, Option<&'a [u8]>),
) -> Option<&'a [u8]>
    ensures { option_copied result ≡ first_not_in all.now (named (pair_seen pair.entry)) }
{
    match unknown_place(all, pair.0) {
        Some(id) => Some(id),
        None => unknown_place(all, pair.1),
    }
}

/// The first id of a couple's pairs that is none of these.
pub(crate) fn first_unknown_of_pairs<'a>(all: &IdTable<'_>, list: Pairs<'a>) -> Option<&'a [u8]>
    ensures { option_copied result ≡ first_not_in all.now (flat_map named (pairs_left list.entry)) }
{
    for pair in list {
        if let Some(id) = unknown_of_pair(all, pair) {
            return Some(id);
        }
    }
    None
}
