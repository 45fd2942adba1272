ghost use Rattle.std.specs.Prelude.{◌≡◌, ◌<◌, [], length, replicate, slice_index_or, IfOk, IsFalse, IsTrue, OnOk};
ghost use Rattle.mt_stage_tables.specs.Indexing.{end_of, AddsPairAt};

use mt_flat::GrowingLists;
use mt_terms::CoupleNo;
use std::alloc::{AllocError, Global};
use std::marker::Model;

/// Pairs of one couple's list that name a program, as indices from 0, as far as 16 bits count.
#[derive(Clone, Copy)]
pub struct NamedPairs {
    /// Whose pairs they are.
    pub couple: CoupleNo,
    /// The index of the first such pair on the list.
    pub from: u16,
    /// One past the index of the last one. The greatest number is no bound.
    pub until: u16,
}

impl NamedPairs {
    /// The end of such pairs on a list of this many.
    pub fn end(&self, pairs: usize) -> usize
        ensures { result ≡ end_of self.now.until pairs }
    {
        if self.until < u16::MAX {
            pairs.min(self.until as usize)
        } else {
            pairs
        }
    }
}

/// For each program the couples of which a pair names it, in the order in which they were added.
pub(crate) struct CoupleLists {
    named: GrowingLists<NamedPairs>,
    /// For each program the couple that was added last, so that no entry is read when another couple is added.
    latest: Vec<CoupleNo>,
}

impl Drop for CoupleLists {
    fn drop(self) {
        let CoupleLists {
            named: _,
            latest: _,
        } = self;
    }
}

impl Model for CoupleLists {
    ghost use Rattle.std.specs.Prelude.{◌≡◌, List, length};
    ghost use Rattle.mt_stage_tables.specs.declared.couple_list.NamedPairs.{NamedPairs};

    ghost Value = { List (List NamedPairs) };

    ghost view = { λ l. l.named };

    ghost invariant = { λ l. length l.latest.items ≡ length l.named };
}

impl CoupleLists {
    /// Empty lists for this many programs. The error is want of memory.
    pub(crate) fn new(alloc: Global, programs: u32) -> Result<Self, AllocError>
        ensures { IfOk result (λ l. l ≡ replicate programs []) }
    {
        let mut named = GrowingLists::new(alloc);
        for _ in 0..programs {
            let nothing = NamedPairs {
                couple: CoupleNo(0),
                from: 0,
                until: 0,
            };
            named.push_row(0, nothing)?;
        }
        let latest = Vec::from_elem(alloc, CoupleNo(0), programs as usize)?;
        Ok(CoupleLists { named, latest })
    }

    /// How many programs there are.
    #[inline]
    pub(crate) fn len(&self) -> usize
        ensures { result ≡ length self.now }
    {
        self.named.len()
    }

    /// The couples of a program.
    #[inline]
    pub(crate) fn row(&self, program: usize) -> &[NamedPairs]
        requires { program < length self.now }
        ensures { result.now ≡ slice_index_or self.now program [] }
    {
        self.named.row(program)
    }

    /// Lets the last entry of a program go on to the couple's pair at an index, if it has an earlier pair of that couple.
    /// The result is whether it has.
    fn extend(&mut self, program: usize, couple: CoupleNo, from: u16) -> bool
        requires { program < length self.old }
        ensures added { IsTrue result → AddsPairAt self.old self.new program couple from }
        ensures same { IsFalse result → self.new ≡ self.old }
    {
        let row = self.named.row(program);
        let Some(last) = row.last() else {
            return false;
        };
        if last.couple != couple || last.from > from {
            return false;
        }
        let longer = NamedPairs {
            couple,
            from: last.from,
            until: last.until.max(from.saturating_add(1)),
        };
        let place = row.len() - 1;
        self.named.set(program, place, longer);
        true
    }

    /// Adds the couple's pair at an index to a program: to the last entry, if that has an earlier pair of the couple. The
    /// error is want of memory, and no clause says what the entries are then.
    #[inline]
    pub(crate) fn add(
        &mut self,
        program: usize,
        couple: CoupleNo,
        from: u16,
    ) -> Result<(), AllocError>
        requires { program < length self.old }
        ensures { OnOk result (AddsPairAt self.old self.new program couple from) }
    {
        if self.latest[program] == couple && self.extend(program, couple, from) {
            return Ok(());
        }
        self.latest[program] = couple;
        let pairs = NamedPairs {
            couple,
            from,
            until: from.saturating_add(1),
        };
        self.named.push(program, pairs)
    }
}
