//! Rank tables of a residency match: for each applicant its live list, and for each program the rank of
//! every applicant that it lists.
#![tactic(auto)]

mod blocks;
mod entries;
mod packed;
mod rows;
mod stamps;
mod tables;
mod transpose;

pub use entries::Live;
pub use packed::PackedLive;
pub use tables::Ranks;
