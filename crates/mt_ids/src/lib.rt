//! What one field of a record says, and ids in tables: each id once, found with its number. A table for each kind.
#![tactic(auto)]

mod id_set;
mod id_table;
mod ids;
mod kinds;
mod seed;
mod words;

pub use id_table::IdTable;
pub use ids::{are_digits, is_dash, is_id, parse_quota, value_of};
pub use kinds::{Kind, Kinds};
pub use seed::{Seed, add_field};
