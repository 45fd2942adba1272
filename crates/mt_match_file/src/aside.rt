ghost use Rattle.std.specs.Prelude.{◌≡◌, ◌<◌, ◌++◌, [], ◌∷◌, length, IfOk, OnOk};
ghost use Rattle.mt_terms.specs.Lists.{has};
ghost use Rattle.mt_match_file.specs.Marks.{AreMarked};

use mt_terms::CoupleNo;
use std::alloc::{AllocError, Global};

/// The couples that are set aside, in the order of their records. A mark for each couple says whether it is one of
/// them.
#[derive(Drop)]
pub(crate) struct AsideCouples {
    couples: Vec<CoupleNo>,
    marks: Vec<bool>,
    ghost marked: { AreMarked couples.items marks.items },
}

impl AsideCouples {
    /// No couple of `count` is set aside.
    pub(crate) fn none(alloc: Global, count: usize) -> Result<Self, AllocError>
        ensures none { IfOk result (λ aside. aside.couples.items ≡ []) }
        ensures marks { IfOk result (λ aside. length aside.marks.items ≡ count) }
    {
        Ok(AsideCouples {
            couples: Vec::new(alloc),
            marks: vec![in alloc; false; count]?,
        })
    }

    /// Whether a couple is one of them.
    pub(crate) fn has(&self, couple: CoupleNo) -> bool
        ensures { result ≡ has self.now.couples.items couple }
    {
        let mark = self.marks.get(couple.index());
        mark.copied().unwrap_or(false)
    }

    /// Adds a couple.
    pub(crate) fn add(&mut self, couple: CoupleNo) -> Result<(), AllocError>
        requires { couple < length self.old.marks.items }
        ensures ok { OnOk result (self.new.couples.items ≡ self.old.couples.items ++ couple ∷ []) }
        ensures marks { length self.new.marks.items ≡ length self.old.marks.items }
    {
        self.couples.push(couple)?;
        self.marks[couple.index()] = true;
        Ok(())
    }

    /// The couples.
    pub(crate) fn into_couples(self) -> Vec<CoupleNo>
        ensures { result.items ≡ self.couples.items }
    {
        let AsideCouples { couples, marks: _ } = self;
        couples
    }
}
