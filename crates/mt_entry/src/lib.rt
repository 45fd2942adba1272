//! What the couples' stage is given and what it ends in, and the trait by which it is called. So what calls it is proved
//! beside it.
#![tactic(auto)]

mod ends;
mod market;
mod stage;

pub use ends::{CoupleEnd, Entered, Reached, Spent};
pub use market::RankedMarket;
pub use stage::CouplesStage;
