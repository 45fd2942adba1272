//! What changes while couples enter. These are the ranks of those that are placed at a program, sets of programs, and the
//! agents that wait. An index leads from programs to the couples that name them.
#![tactic(auto)]

mod couple_list;
mod pair_index;
mod placed;
mod program_set;
mod work_list;

pub use couple_list::NamedPairs;
pub use pair_index::{Pair, PairIndex};
pub use placed::PlacedRanks;
pub use program_set::ProgramSet;
pub use work_list::WorkList;
