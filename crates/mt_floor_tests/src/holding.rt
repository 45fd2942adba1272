//! One program's holding: of all who proposed it holds the most wanted, in whatever order they come.
ghost use Rattle.std.specs.Prelude.{◌≡◌};
ghost use Rattle.mt_hold.specs.Holding.{ranks};

use crate::expect::{same, same_for};
use mt_hold::{Hold, Taken};
use std::process::Abort;
use std::test::Fail;

// Makes a proposal that wasn't made yet, and expects this reply.
fn expect_reply(rt: &impl Abort, hold: &mut Hold, list_len: u32, rank: u32, reply: Taken)
    requires { ranks hold.old ≡ list_len }
    ensures { ranks hold.new ≡ list_len }
{
    assert!(rt; rank < list_len);
    assert!(rt; !hold.received(rank));
    same_for(rt, hold.propose(rank), reply, rank);
    assert!(rt; hold.received(rank));
}

// Of two posts and three ranks the first two are held in the end: a better rank displaces the last, and a worse one is
// refused.
#[test]
fn the_best_ranks_are_held(rt: HostRuntime) -> Result<(), Fail> {
    for [first, second, third] in [
        [
            (1, Taken::Kept),
            (2, Taken::Kept),
            (0, Taken::KeptInstead(2)),
        ],
        [(0, Taken::Kept), (1, Taken::Kept), (2, Taken::Refused)],
    ] {
        let mut hold = Hold::open(rt.alloc(), 2, 3)?;
        expect_reply(&rt, &mut hold, 3, first.0, first.1);
        expect_reply(&rt, &mut hold, 3, second.0, second.1);
        expect_reply(&rt, &mut hold, 3, third.0, third.1);
        same(&rt, hold.count(), 3);
        let held = [hold.holds(0), hold.holds(1), hold.holds(2)];
        same(&rt, held, [true, true, false]);
    }
    Ok(())
}

#[test]
fn without_a_post_everybody_is_refused(rt: HostRuntime) -> Result<(), Fail> {
    let mut hold = Hold::open(rt.alloc(), 0, 1)?;
    expect_reply(&rt, &mut hold, 1, 0, Taken::Refused);
    assert!(rt; !hold.holds(0));
    Ok(())
}
