//! What the programs over files share: their arguments, the files that these name, and the line for want of memory.
//! They also share the statuses of the codes of files, and why a file couldn't be opened. The last part is what is
//! written for words that ask for no run.
#![tactic(auto)]

mod arguments;
mod files;
mod matching;
mod memory;
mod status;
mod unasked;
mod unopened;

pub use arguments::{MARKET_HELP, MATCH_HELP, file_arg, flag_arg, two_files_command};
pub use files::{TwoFiles, named_files, two_files};
pub use matching::{is_given, matches_of};
pub use memory::no_memory;
pub use status::exit_status;
pub use unasked::end_unasked;
pub use unopened::say_unopened_files;
