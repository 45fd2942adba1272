use crate::source::Source;
use mt_terms::Refusal;

/// A refusal, and the file that is refused.
#[derive(Drop)]
pub struct Refused {
    /// The file.
    pub source: Source,
    /// Why it is refused.
    pub refusal: Refusal,
}
