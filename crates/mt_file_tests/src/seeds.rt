//! Seeds of tables. Nobody sees them, but what is hashed by them depends on all that a table will hold.
use crate::expect::same;
use mt_ids::{Seed, add_field};
use std::hash::{BuildHasher, DefaultHasher, Hasher};

// What a table of two ids makes of a number.
fn hashed(first: &[u8], second: &[u8]) -> u64 {
    let mut digest = DefaultHasher::new();
    add_field(&mut digest, first);
    add_field(&mut digest, second);
    let mut hasher = Seed::of(&digest).build_hasher();
    hasher.write_u64(1);
    hasher.finish()
}

// The same ids give the same seed. Other ids, or the same bytes parted otherwise, give another.
#[test]
fn bytes_parted_otherwise_give_another_seed(rt: HostRuntime) {
    let seen = hashed(b"ab", b"c");
    let longer = hashed(b"abcdefgh", b"ijklmnopqrstuvwxyz");
    let are_same = [
        seen == hashed(b"ab", b"c"),
        seen == hashed(b"ab", b"d"),
        seen == hashed(b"a", b"bc"),
        longer == hashed(b"abcdefgh", b"ijklmnopqrstuvwxyz"),
        longer == hashed(b"abcdefgh", b"ijklmnopqrstuvwxyy"),
        longer == hashed(b"abcdefg", b"hijklmnopqrstuvwxyz"),
        longer == hashed(b"abcdefghi", b"jklmnopqrstuvwxyz"),
    ];
    same(
        &rt,
        are_same,
        [true, false, false, true, false, false, false],
    );
}
