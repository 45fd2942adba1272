use mt_terms::IdText;
use std::alloc::AllocError;
use thiserror::Error;

/// The ways in which the couples may enter.
#[derive(Clone, Copy, Debug, PartialEq, Eq)]
pub struct Ways {
    /// How many orders are tried, 1 to 1,000, that of registration first.
    pub orders: u32,
    /// Whether couples are set aside, one after another, if no order ends within the budget.
    pub set_aside: bool,
}

/// The couple that was entering, in the order of registration, when the budget was spent.
#[derive(Debug, Drop)]
pub struct Entering {
    /// Its id.
    pub id: IdText,
    /// How many rounds were made, over all couples.
    pub rounds: u32,
    /// Whether a state came back, so that no budget is enough for this order.
    pub comes_back: bool,
}

/// Why a market has no match.
#[derive(Debug, Drop, Error)]
pub enum Unanswered {
    /// No order ended within the budget.
    #[error("the couples' rounds would exceed the budget")]
    BudgetSpent(Entering),
    /// Memory was refused.
    #[error("out of memory")]
    Memory,
}

impl From<AllocError> for Unanswered {
    ghost use Rattle.std.specs.Prelude.{◌≡◌};
    ghost use Rattle.mt_answer.specs.declared.ways.Unanswered.TheVariants.{Memory};

    ghost from_gives = { λ _ e. e ≡ Memory };

    fn from(_: AllocError) -> Self {
        Unanswered::Memory
    }
}

/// The text that answers a market.
#[derive(Drop)]
pub struct Answer {
    /// 0 for the text of a match, and [`SET_ASIDE`](mt_report::SET_ASIDE) if couples are set aside.
    pub code: u16,
    /// The text.
    pub text: Vec<u8>,
}
