ghost use Rattle.std.specs.Prelude.{◌≡◌, ◌+◌, ◌<◌, length, slice_index};
ghost use Rattle.mt_terms.specs.Market.{applicants};
ghost use Rattle.mt_desks.specs.Parts.{IsPass, one_more};

use crate::name::HallName;
use crate::till::Till;
use mt_tally::{DeskShare, PassShare, enter};
use mt_terms::{AppNo, ProgNo};
use std::marker::Model;
use std::sync::{Mutex, MutexGuard, Wait};

/// What a worker carries: a credit for each proposal that it has made, and how many of them were to each program and
/// for each applicant.
pub struct Pass<K: HallName> {
    pub(crate) credits: PassShare<K>,
    pub(crate) by_program: Vec<u32>,
    pub(crate) by_applicant: Vec<u32>,
    // How often it waited for a lock. Nothing rests on it but how long a worker rests.
    pub(crate) contended_locks: u32,
}

impl<K: HallName> Model for Pass<K> {
    ghost use Rattle.mt_desks.specs.Parts.{PassView, IsPass};

    ghost Value = { PassView };

    ghost view = { λ p. record {
      proposals = p.credits;
      by_program = p.by_program.items;
      by_applicant = p.by_applicant.items;
    } };

    ghost invariant = { λ p. IsPass K.ranked.market (record {
      proposals = p.credits;
      by_program = p.by_program.items;
      by_applicant = p.by_applicant.items;
    }) };
}

impl<K: HallName> Pass<K> {
    /// How many proposals were made with it. Its counts by program add up to that, and so do those by applicant.
    pub fn proposals(&self) -> u64
        ensures proposals { result ≡ self.now.proposals }
        ensures keeps { IsPass K.ranked.market self.now }
    {
        self.credits.credits()
    }

    /// How many of them were to the program.
    pub fn proposed(&self, program: ProgNo) -> u64
        requires { program < length K.ranked.market.programs }
        ensures { result ≡ slice_index self.now.by_program program }
    {
        self.by_program[program.index()] as u64
    }

    /// How many of them were the applicant's.
    pub fn proposed_for(&self, applicant: AppNo) -> u64
        requires { applicant < applicants K.ranked.market }
        ensures { result ≡ slice_index self.now.by_applicant applicant }
    {
        self.by_applicant[applicant.index()] as u64
    }

    /// How often a lock that was wanted was another worker's just then. That is more often if workers are in each
    /// other's way. The number is about right, and no clause pins it.
    pub fn contended_locks(&self) -> u32 {
        self.contended_locks
    }

    /// Ends the pass, and gives its share of credits.
    pub fn into_credits(self) -> PassShare<K>
        ensures { result ≡ self.proposals }
    {
        let Pass {
            credits,
            by_program: _,
            by_applicant: _,
            contended_locks: _,
        } = self;
        credits
    }

    /// Locks, and counts if another worker has the lock.
    pub fn lock<'m, T, R: Wait>(&mut self, rt: &R, lock: &'m Mutex<T>) -> MutexGuard<'m, T>
        ensures { self.new ≡ self.old }
    {
        match lock.try_lock() {
            Some(guard) => guard,
            None => {
                self.contended_locks = self.contended_locks.wrapping_add(1);
                lock.lock(rt)
            }
        }
    }

    /// Takes one credit of a desk, and counts the proposal.
    pub(crate) fn count<R: Wait>(
        &mut self,
        rt: &R,
        till: &Mutex<Till<K>>,
        desk: &mut DeskShare<K>,
        program: ProgNo,
        applicant: AppNo,
    )
        requires any { 0 < desk.old }
        requires program { program < length K.ranked.market.programs }
        requires applicant { applicant < applicants K.ranked.market }
        ensures desk { desk.new + 1 ≡ desk.old }
        ensures pass { self.new ≡ one_more self.old program applicant }
    {
        {
            let mut till = self.lock(rt, till);
            enter(&mut till.roll, desk, &mut self.credits);
        }
        self.by_program[program.index()] += 1;
        self.by_applicant[applicant.index()] += 1;
    }
}
