//! What all programs have in common: a command's words, a file that is opened late, what is written besides answers, and
//! the statuses for that.
#![tactic(auto)]

mod command;
mod input;
mod paths;
mod reason;
mod told;
mod unasked;

pub use command::plain_command;
pub use input::Input;
pub use paths::{is_standard, path_by};
pub use reason::say_unopened;
pub use told::{MISUSE, NO_MEMORY, UNWRITTEN, tell, words_of};
pub use unasked::{Unasked, misuse, tell_unasked};
