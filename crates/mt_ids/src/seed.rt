//! Seeds of tables. Each depends on all that its table will hold, so that nobody can choose beforehand what collides
//! there.
ghost use Rattle.std.specs.Prelude.{◌≡◌};
ghost use Rattle.mt_ids.specs.Seeds.{seed_by, with_field};

use crate::words::{MOST_IN_PAIR, MOST_IN_WORD, pair_of, word_of};
use std::hash::{BuildHasher, DefaultHasher, FoldHasher, Hasher};

/// What makes the hashers of a table.
#[derive(Clone, Copy)]
pub struct Seed {
    begun: FoldHasher,
}

impl Seed {
    /// The seed of a table, by a digest of all that it will hold.
    pub fn of(digest: &DefaultHasher) -> Seed
        ensures { result ≡ seed_by digest.now }
    {
        let mut begun = FoldHasher::default();
        begun.write_u64(digest.finish());
        Seed { begun }
    }
}

impl BuildHasher for Seed {
    ghost use Rattle.mt_ids.specs.Seeds.{first_hasher};

    type Hasher = FoldHasher;

    ghost build_hasher = { first_hasher };

    fn build_hasher(&self) -> FoldHasher {
        self.begun
    }
}

/// Adds a field to a digest, with its length. So the same bytes, parted in another way, give another digest. A short field
/// is one or two numbers, since bytes that don't come eight by eight take longer.
#[tactic(auto, unfolding(crate::specs::Seeds::with_field))]
pub fn add_field(digest: &mut DefaultHasher, field: &[u8])
    ensures { digest.new ≡ with_field digest.old field.now }
{
    if field.len() <= MOST_IN_WORD {
        digest.write_u64(word_of(field));
    } else if field.len() <= MOST_IN_PAIR {
        let (first, last) = pair_of(field);
        digest.write_u64(last);
        digest.write_u64(first);
    } else {
        digest.write_usize(field.len());
        digest.write(field);
    }
}
