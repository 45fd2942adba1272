//! A market and a match of its applicants, as two readers give them, or the refusal of one of the two files.
#![tactic(auto)]

mod files;
mod refusal;
mod refused_file;
mod source;

pub use files::{Files, read_files};
pub use refusal::{FileRefusalLine, refusal_line, refuse, refused};
pub use refused_file::Refused;
pub use source::Source;
