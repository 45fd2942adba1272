//! The number of the line on which each record of an input begins. Records are those that the crate `csv` reads.
//! Empty lines and line ends in quotes count as lines.
#![tactic(auto)]

pub mod laws;
mod numbers;
mod place;
mod within;

pub use numbers::LineNumbers;
