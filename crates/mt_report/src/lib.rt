//! The text of a match, the line of a refusal, and how either is written.
#![tactic(auto)]

mod aside;
mod counts;
mod drain;
mod ended;
mod line;
mod refusal;
mod text;
mod writing;

pub use aside::published_aside;
pub use counts::{filled_counts, filled_total, position_count, unmatched_count};
pub use drain::Drain;
pub use ended::{Ended, SET_ASIDE, end};
pub use line::write_line;
pub use refusal::{RefusalLine, code_name, id_or_dash, refused};
pub use text::published;
pub use writing::{Wrote, put_all};
