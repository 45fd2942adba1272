//! Ranks as bits, in words of 64, and a set of them for each of several lists.
#![tactic(auto)]

mod rank_table;

pub use rank_table::{RankRow, RankTable};
