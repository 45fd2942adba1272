//! Lists of lists: rows that grow side by side in one vector, lists one after another, and chunks of these.
#![tactic(auto)]

mod chunked_lists;
mod flat_lists;
mod growing_lists;

pub use chunked_lists::ChunkedLists;
pub use flat_lists::FlatLists;
pub use growing_lists::GrowingLists;
