ghost use Rattle.std.specs.Prelude.{◌≡◌, not, ◌==◌, nat_lt, drop, filter, IfOk, IsTrue, IsFalse, OnOk, OnErr};
ghost use Rattle.std.specs.List.Sorted.{IsStrictlySortedBy};
ghost use Rattle.std.specs.Ordering.{nat_cmp};
ghost use Rattle.std.specs.BTreeSet.{insert_key};
ghost use Rattle.mt_terms.specs.Lists.{count, has};
ghost use Rattle.mt_stage_tables.specs.Ranks.{HasRanks};

use mt_bits::RankRow;
use std::alloc::{AllocError, Global};
use std::marker::Model;

/// The ranks of those that are placed at a program, in rising order.
#[derive(Drop)]
pub struct PlacedRanks {
    ranks: Vec<u32>,
}

impl Model for PlacedRanks {
    ghost use Rattle.std.specs.Prelude.{List, ℕ};

    ghost Value = { List ℕ };

    ghost view = { λ r. r.ranks.items };
}

impl PlacedRanks {
    /// The ranks of a row, with room for this many. The error is want of memory.
    pub fn of_row(alloc: Global, row: &RankRow<'_>, room: usize) -> Result<Self, AllocError>
        ensures { IfOk result (HasRanks row.now) }
    {
        let mut ranks = Vec::with_capacity(alloc, room)?;
        let mut next = 0;
        while let Some(rank) = row.first_from(next) {
            ranks.push(rank)?;
            next = rank as usize + 1;
        }
        Ok(PlacedRanks { ranks })
    }

    /// How many ranks are below this one.
    pub fn count_below(&self, rank: u32) -> usize
        requires { IsStrictlySortedBy nat_cmp self.now }
        ensures { result ≡ count (λ r. nat_lt r rank) self.now }
    {
        self.ranks.partition_point(|other| *other < rank)
    }

    /// Whether fewer than `most` ranks are below this one.
    pub fn has_fewer_below(&self, rank: u32, most: usize) -> bool
        requires { IsStrictlySortedBy nat_cmp self.now }
        ensures { result ≡ nat_lt (count (λ r. nat_lt r rank) self.now) most }
    {
        if most == 0 {
            return false;
        }
        match self.ranks.get(most - 1) {
            Some(other) => *other >= rank,
            None => true,
        }
    }

    /// Puts a rank in its place.
    pub fn insert(&mut self, rank: u32) -> Result<(), AllocError>
        requires sorted { IsStrictlySortedBy nat_cmp self.old }
        requires absent { IsFalse (has self.old rank) }
        ensures ok { OnOk result (self.new ≡ insert_key nat_cmp self.old rank) }
        ensures err { OnErr result (self.new ≡ self.old) }
    {
        let place = self.count_below(rank);
        self.ranks.insert(place, rank)?;
        Ok(())
    }

    /// Takes a rank out.
    pub fn remove(&mut self, rank: u32)
        requires sorted { IsStrictlySortedBy nat_cmp self.old }
        requires present { IsTrue (has self.old rank) }
        ensures { self.new ≡ filter (λ r. not (r == rank)) self.old }
    {
        let place = self.count_below(rank);
        let _ = self.ranks.remove(place);
    }

    /// All ranks but this many of the first.
    pub fn beyond(&self, first: usize) -> &[u32]
        ensures { result.now ≡ drop first self.now }
    {
        self.ranks.get(first..).unwrap_or(&[])
    }
}
