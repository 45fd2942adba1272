ghost use Rattle.std.specs.Prelude.{◌≡◌, [], ◌∷◌};
ghost use Rattle.mt_ids.specs.Seeds.{seed_of};

use mt_ids::{Seed, add_field};
use std::hash::DefaultHasher;

/// The seed of tables of what is in a file. It depends on all bytes of the file, so that nobody can choose beforehand
/// what collides there.
pub(crate) fn seed_of(bytes: &[u8]) -> Seed
    ensures { result ≡ seed_of (bytes.now ∷ []) }
{
    let mut digest = DefaultHasher::new();
    add_field(&mut digest, bytes);
    Seed::of(&digest)
}
