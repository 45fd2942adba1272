ghost use Rattle.std.specs.Prelude.{◌≡◌, ◌+◌, ◌<◌, ◌^◌, IfOk, length, replicate, sum};
ghost use Rattle.mt_tally.specs.Tally.{all_dealt};

use crate::roll::Roll;
use crate::shares::{DeskShare, PassShare};
use std::alloc::{AllocError, Global};
use std::sync::ledger::{Blank, Ledger};

/// Opens a ledger. There is a desk share for each number, in order, with that many credits, and `passes` pass shares
/// with none. The blank has one part for each share. It takes the memory for all shares first. So if it ends in its
/// one error, want of memory, no credit was dealt.
pub fn deal<K: Ledger>(
    alloc: Global,
    blank: Blank,
    credits: &[u32],
    passes: u32,
) -> Result<(Roll<K>, Vec<DeskShare<K>>, Vec<PassShare<K>>), AllocError>
    requires name { blank.name ≡ K.name }
    requires parts { (blank.parts ≡ K.parts) × (K.parts ≡ length credits.now + passes) }
    requires any { 0 < length credits.now + passes }
    requires fits { sum credits.now < 2 ^ 32 }
    ensures roll { IfOk result (λ dealt. dealt.0 ≡ all_dealt (sum credits.now)) }
    ensures desks { IfOk result (λ dealt. dealt.1.items ≡ credits.now) }
    ensures passes { IfOk result (λ dealt. dealt.2.items ≡ replicate passes 0) }
{
    let mut desk_shares = Vec::with_capacity(alloc, credits.len())?;
    let mut pass_shares = match Vec::with_capacity(alloc, passes as usize) {
        Ok(shares) => shares,
        Err(refused) => {
            desk_shares.destroy_empty();
            return Err(refused);
        }
    };
    let (mut book, mut rest) = blank.open::<K>();
    let mut total: u64 = 0;
    for i in 0..credits.len() {
        let number = credits[i] as u64;
        let mut share = rest.split_off(1, 0);
        book.add(&mut share, number);
        total += number;
        desk_shares.push_reserved(DeskShare {
            credits: number,
            share,
        });
    }
    for _j in 0..passes {
        let share = rest.split_off(1, 0);
        pass_shares.push_reserved(PassShare { credits: 0, share });
    }
    let roll = Roll {
        total,
        book,
        taken: rest,
        desk_credits: 0,
        pass_credits: 0,
    };
    Ok((roll, desk_shares, pass_shares))
}
