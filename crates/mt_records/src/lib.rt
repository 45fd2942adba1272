//! One record parsed by itself, by the rules of its version, or its first fault. It also has what follows the record that
//! names the version.
#![tactic(auto)]

mod body;
mod fields;
mod first_fault;
mod grow;
mod limits;
mod record;
mod rules;

pub use body::{Body, body_of};
pub use fields::{CoupleFields, Pairs};
pub use first_fault::{Fault, FirstFault};
pub use grow::push;
pub use limits::are_over;
pub use record::{
    Record, RecordFault, kind_of, names_are_ids, record_of, withdraw_record, withdraws,
};
pub use rules::{Rules, rules_of};
