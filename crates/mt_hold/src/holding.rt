ghost use Rattle.std.specs.Prelude.{◌≡◌, ◌↔◌, ◌<◌, ◌/◌, ℕ, IfOk, IsTrue, IsFalse, length};
ghost use Rattle.mt_terms.specs.Lists.{with_one, count_below};
ghost use Rattle.mt_bits.specs.Flags.{flag};
ghost use Rattle.mt_hold.specs.Ends.{IsLastBelow};
ghost use Rattle.mt_hold.specs.Settled.{IsSettled};

use std::alloc::{AllocError, Global};
use std::marker::Model;

/// The answer to a proposal, by ranks.
#[derive(Clone, Copy, Debug, PartialEq, Eq)]
pub enum Taken {
    /// The rank is held, and no rank was displaced for it.
    Kept,
    /// The rank is held, and this one no longer.
    KeptInstead(u32),
    /// The rank isn't held.
    Refused,
}

/// What a program holds of the proposals that it received, by the ranks of the applicants on its list. A rank is the
/// position from 0, so the program wants a lower one more. As in deferred acceptance (Gale and Shapley 1962), it
/// holds the best of all that it has received, as many as its quota.
#[derive(Drop)]
pub struct Hold {
    quota: u32,
    list_len: u32,
    count: u32,
    // The held ranks are the received ones below it.
    end: u32,
    // One bit for each rank, and one more at least: whether a proposal came from there.
    received: Vec<u64>,
}

impl Model for Hold {
    ghost use Rattle.std.specs.Prelude.{◌≡◌};
    ghost use Rattle.mt_hold.specs.Holding.{Holding};

    ghost Value = { Holding };

    ghost use Rattle.mt_hold.specs.Inside.{holding_of, IsSound};

    ghost view = { holding_of };

    ghost invariant = { IsSound };
}

impl Hold {
    ghost use Rattle.mt_hold.specs.Holding.{ranks, has_received, received_count, held, opened, receive};

    /// The holding of a program with that quota and a list of `list_len` applicants, which has received nothing.
    /// It takes all the memory that the holding will ever use, and its one error is that there isn't enough.
    pub fn open(alloc: Global, quota: u32, list_len: u32) -> Result<Hold, AllocError>
        ensures { IfOk result (λ hold. hold ≡ opened quota list_len) }
    {
        let received = vec![in alloc; 0u64; list_len as usize / 64 + 1]?;
        Ok(Hold {
            quota,
            list_len,
            count: 0,
            end: list_len,
            received,
        })
    }

    /// Receives a proposal from a rank, and holds it if it is among the best `quota` received. The result says so,
    /// and which rank it displaced. It takes no memory.
    pub fn propose(&mut self, rank: u32) -> Taken
        requires on_list { rank < ranks self.old }
        requires first_time { IsFalse (has_received self.old rank) }
        ensures received { self.new ≡ receive self.old rank }

        // Refused exactly if it isn't held, and another rank exactly if that was held and is no longer.
        ensures refused { (result ≡ Taken.Refused) ↔ IsFalse (held self.new rank) }
        ensures dropped { (other : ℕ) → (result ≡ Taken.KeptInstead other)
            ↔ (IsTrue (held self.old other) × IsFalse (held self.new other)) }
    {
        set_flag(self.received.as_mut_slice(), rank);
        self.count += 1;
        let words = self.received.as_slice();
        settle(words, self.quota, self.count, &mut self.end, rank)
    }

    /// Whether the rank is held.
    pub fn holds(&self, rank: u32) -> bool
        ensures { result ≡ held self.now rank }
    {
        rank < self.end && is_flagged(self.received.as_slice(), rank)
    }

    /// Whether the rank, from which a proposal was received, is held.
    pub fn keeps(&self, rank: u32) -> bool
        requires on_list { rank < ranks self.now }
        requires received { IsTrue (has_received self.now rank) }
        ensures { result ≡ held self.now rank }
    {
        rank < self.end
    }

    /// Whether a proposal from the rank was received.
    pub fn received(&self, rank: u32) -> bool
        requires { rank < ranks self.now }
        ensures { result ≡ has_received self.now rank }
    {
        is_flagged(self.received.as_slice(), rank)
    }

    /// From how many ranks a proposal was received.
    pub fn count(&self) -> u32
        ensures { result ≡ received_count self.now }
    {
        self.count
    }
}

// Whether the rank's bit is set.
fn is_flagged(words: &[u64], rank: u32) -> bool
    requires { rank / 64 < length words.now }
    ensures { result ≡ flag words.now rank }
{
    (words[rank as usize / 64] >> (rank % 64)) & 1 == 1
}

// Sets the rank's bit.
fn set_flag(words: &mut [u64], rank: u32)
    requires { rank / 64 < length words.old }
    ensures { (other : ℕ) → flag words.new other ≡ with_one (flag words.old) rank other }
{
    words[rank as usize / 64] |= 1 << (rank % 64);
}

// Moves the end down to the last rank below it, if more than the quota are received and the rank, which was just
// received, comes before the end.
fn settle(words: &[u64], quota: u32, count: u32, end: &mut u32, rank: u32) -> Taken
    requires within { end.old / 64 < length words.now }
    requires received { IsTrue (flag words.now rank) }
    ensures { IsSettled (flag words.now) quota count rank end.old result end.new }
{
    if count <= quota {
        return Taken::Kept;
    }
    if *end <= rank {
        return Taken::Refused;
    }
    let last = last_flag_below(words, *end);
    *end = last;
    if last == rank {
        Taken::Refused
    } else {
        Taken::KeptInstead(last)
    }
}

// The last rank below the end whose bit is set.
fn last_flag_below(words: &[u64], end: u32) -> u32
    requires within { end / 64 < length words.now }
    requires some { 0 < count_below (flag words.now) end }
    ensures { IsLastBelow (flag words.now) end result }
{
    let mut at = end / 64;
    let mut word = words[at as usize] & ((1 << (end % 64)) - 1);
    while word == 0 {
        at -= 1;
        word = words[at as usize];
    }
    64 * at + word.ilog2()
}
