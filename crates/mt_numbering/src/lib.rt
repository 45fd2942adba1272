//! The market of rows without a fault, by numbers: which records stay if others withdraw some, and each entry of each
//! list, looked up once.
#![tactic(auto)]

mod entries;
mod listed;
mod market;
mod tables;
mod withdrawals;

pub use market::faultless_market;
