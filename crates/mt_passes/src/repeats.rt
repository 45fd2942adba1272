ghost use Rattle.std.specs.Prelude.{◌≡◌, not, bytes_eq, flat_map, IfOk};
ghost use Rattle.mt_lists.specs.Rows.{fields_left};
ghost use Rattle.mt_ids.specs.Seeds.{seed_of, with_fields};
ghost use Rattle.mt_passes.specs.Seeds.{pair_fields};
ghost use Rattle.mt_terms.specs.Registration.Ids.{all_differ};
ghost use Rattle.mt_terms.specs.Registration.Passes.{is_same_pair};
ghost use Rattle.mt_records.specs.Fields.{pairs_left};

use crate::pair_table::PairTable;
use mt_ids::{IdTable, Seed, add_field};
use mt_lists::Fields;
use mt_records::Pairs;
use std::alloc::{AllocError, Global};
use std::hash::DefaultHasher;

/// Adds fields to a digest.
pub(crate) fn add_fields(digest: &mut DefaultHasher, fields: Fields<'_>)
    ensures { digest.new ≡ with_fields digest.old (fields_left fields.entry) }
{
    for field in fields {
        add_field(digest, field);
    }
}

/// The seed of a table of the ids in a list.
fn ids_seed(list: Fields<'_>) -> Seed
    ensures { result ≡ seed_of (fields_left list.entry) }
{
    let mut digest = DefaultHasher::new();
    add_fields(&mut digest, list);
    Seed::of(&digest)
}

/// Whether a list has an id twice.
pub(crate) fn has_repeat(alloc: Global, list: Fields<'_>) -> Result<bool, AllocError>
    ensures { IfOk result (λ repeats. repeats ≡ not (all_differ bytes_eq (fields_left list.entry))) }
{
    let mut seen = IdTable::with_capacity(alloc, list.len(), ids_seed(list))?;
    for id in list {
        if !seen.add(id)? {
            return Ok(true);
        }
    }
    Ok(false)
}

/// The seed of a table of these pairs.
fn pairs_seed(pairs: Pairs<'_>) -> Seed
    ensures { result ≡ seed_of (flat_map pair_fields (pairs_left pairs.entry)) }
{
    let mut digest = DefaultHasher::new();
    for (first, second) in pairs {
        add_field(&mut digest, first.unwrap_or(b"-"));
        add_field(&mut digest, second.unwrap_or(b"-"));
    }
    Seed::of(&digest)
}

/// Whether a couple's list has a pair twice.
pub(crate) fn has_repeated_pair(alloc: Global, pairs: Pairs<'_>) -> Result<bool, AllocError>
    ensures { IfOk result
        (λ repeats. repeats ≡ not (all_differ is_same_pair (pairs_left pairs.entry))) }
{
    let mut seen = PairTable::with_capacity(alloc, pairs.len(), pairs_seed(pairs))?;
    for pair in pairs {
        if !seen.add(pair)? {
            return Ok(true);
        }
    }
    Ok(false)
}
