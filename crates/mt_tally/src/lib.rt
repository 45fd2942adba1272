//! Credits that are neither invented nor lost: one ledger for a hall, in which one credit is one proposal. An
//! applicant's desk is dealt as many credits as it has live entries. Each proposal moves one of them to the pass of
//! the worker that made it. Shares can't be dropped, copied or split, so the code that opens a ledger has to bring
//! back every share of it.
#![tactic(auto)]

mod dealing;
mod moves;
mod roll;
mod shares;

pub use dealing::deal;
pub use moves::{enter, settle, take_desk, take_pass};
pub use roll::Roll;
pub use shares::{DeskShare, PassShare};
