use mt_terms::{CoupleNo, Match};
use std::alloc::AllocError;
use thiserror::Error;

/// How far the rounds went when the budget was spent.
#[derive(Clone, Copy, Debug, PartialEq, Eq)]
pub struct Spent {
    /// The couple that was entering.
    pub couple: CoupleNo,
    /// How many rounds were made, over all couples.
    pub rounds: u32,
    /// Whether a state came back, so that no budget is enough.
    pub comes_back: bool,
}

/// Why the couples' stage did not end with a match.
#[derive(Clone, Copy, Debug, PartialEq, Eq, Error)]
pub enum CoupleEnd {
    /// The rounds would be more than the budget.
    #[error("the couples' rounds would exceed the budget")]
    BudgetSpent(Spent),
    /// Memory was refused.
    #[error("out of memory")]
    Memory,
}

impl From<AllocError> for CoupleEnd {
    ghost use Rattle.std.specs.Prelude.{◌≡◌};
    ghost use Rattle.mt_entry.specs.declared.ends.CoupleEnd.TheVariants.{Memory};

    ghost from_gives = { λ _ e. e ≡ Memory };

    fn from(_: AllocError) -> Self {
        CoupleEnd::Memory
    }
}

/// The match once every couple has entered.
#[derive(Drop)]
pub struct Entered {
    pub matched: Match,
    /// How many rounds it took, over all couples.
    pub rounds: u32,
}

/// How far couples have entered.
#[derive(Drop)]
pub struct Reached {
    /// The match that they have entered.
    pub matched: Match,
    /// How many have entered: the couples below this number.
    pub entered: u32,
    /// How many rounds are left of the budget.
    pub left: u32,
}
