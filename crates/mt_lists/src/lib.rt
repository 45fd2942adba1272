//! From the bytes of an input to its records: a reader with counts, the whole of its bytes within a limit, and its
//! rows. The rows of a text without a quote are its lines. Those of any other text are what the crate `csv` reads.
#![tactic(auto)]

mod input;
pub mod laws;
mod lines;
mod read_row;
mod row;
mod rows;
mod splitting;
mod tap;

pub use input::{ReadEnd, read_all};
pub use row::{Fields, Row};
pub use rows::{Rows, RowsIter};
pub use splitting::{ListFault, records};
pub use tap::{SourceFault, Tap};
