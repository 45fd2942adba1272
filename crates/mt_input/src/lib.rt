//! The market that a reader gives: its bytes, read within the limit, and the market that their records are.
#![tactic(auto)]

mod bytes;
mod market;

pub use bytes::bytes_of;
pub use market::{market_in, read_market};
