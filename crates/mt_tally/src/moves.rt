ghost use Rattle.std.specs.Prelude.{◌≡◌, ◌+◌, ◌<◌, ◌≤◌, ◌^◌};

use crate::roll::Roll;
use crate::shares::{DeskShare, PassShare};
use std::sync::ledger::Ledger;

/// Enters one proposal: moves one credit from the desk of the applicant that makes it to the pass of the worker.
pub fn enter<K: Ledger>(roll: &mut Roll<K>, desk: &mut DeskShare<K>, pass: &mut PassShare<K>)
    requires any { 0 < desk.old }
    ensures roll { roll.new ≡ roll.old }
    ensures desk { desk.new + 1 ≡ desk.old }
    ensures pass { pass.new ≡ pass.old + 1 }

    // No pass has more credits than were dealt.
    ensures within { pass.new ≤ roll.new.total }
    ensures fits { pass.new < 2 ^ 64 }
{
    roll.book.sub(&mut desk.share, 1);
    roll.book.audit(&mut pass.share);
    roll.book.add(&mut pass.share, 1);
    roll.book.audit(&mut pass.share);
    desk.credits -= 1;
    pass.credits += 1;
}

/// Takes a desk's share in: its credits are the proposals that weren't made.
pub fn take_desk<K: Ledger>(roll: &mut Roll<K>, share: DeskShare<K>)
    ensures total { roll.new.total ≡ roll.old.total }
    ensures shares { roll.new.shares ≡ roll.old.shares + 1 }
    ensures desk_credits { roll.new.desk_credits ≡ roll.old.desk_credits + share }
    ensures pass_credits { roll.new.pass_credits ≡ roll.old.pass_credits }

    // No more is taken in than was dealt.
    ensures within { roll.new.desk_credits + roll.new.pass_credits ≤ roll.new.total }
    ensures fits { roll.new.desk_credits + roll.new.pass_credits < 2 ^ 64 }
{
    let DeskShare { credits, share } = share;
    roll.taken.merge(share);
    roll.book.audit(&mut roll.taken);
    roll.desk_credits += credits;
}

/// Takes a pass's share in: its credits are the proposals that were made with it.
pub fn take_pass<K: Ledger>(roll: &mut Roll<K>, share: PassShare<K>)
    ensures total { roll.new.total ≡ roll.old.total }
    ensures shares { roll.new.shares ≡ roll.old.shares + 1 }
    ensures desk_credits { roll.new.desk_credits ≡ roll.old.desk_credits }
    ensures pass_credits { roll.new.pass_credits ≡ roll.old.pass_credits + share }

    // No more is taken in than was dealt.
    ensures within { roll.new.desk_credits + roll.new.pass_credits ≤ roll.new.total }
    ensures fits { roll.new.desk_credits + roll.new.pass_credits < 2 ^ 64 }
{
    let PassShare { credits, share } = share;
    roll.taken.merge(share);
    roll.book.audit(&mut roll.taken);
    roll.pass_credits += credits;
}

/// Spends the ledger, once every share was taken in: with how many credits the desks came back, and with how many the
/// passes. Together these are all that were dealt, so as many proposals were made as the passes have credits.
pub fn settle<K: Ledger>(roll: Roll<K>) -> (u64, u64)
    requires all { roll.shares ≡ K.parts }
    ensures desks { result.0 ≡ roll.desk_credits }
    ensures passes { result.1 ≡ roll.pass_credits }
    ensures total { result.0 + result.1 ≡ roll.total }
{
    let Roll {
        total: _,
        mut book,
        mut taken,
        desk_credits,
        pass_credits,
    } = roll;
    book.audit(&mut taken);
    (desk_credits, pass_credits)
}
