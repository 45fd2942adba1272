//! All faults of a file's records, found by two passes over them and handed to a sink one after another.
#![tactic(auto)]

mod before;
mod entries;
mod find;
mod finder;
mod names;
mod pairs;
mod parts;
mod placed;
mod registry;
mod repeats;
mod rows;
mod tell;
mod unknown;

pub use find::find_faults;
