use mt_terms::{AppNo, ProgNo};

/// The answer to a call of `advance`.
#[derive(Clone, Copy, Debug, PartialEq, Eq)]
pub enum Answer {
    /// The applicant proposed. Whether the program holds it, and whom it holds no longer for that.
    Moved {
        to: ProgNo,
        kept: bool,
        displaced: Option<AppNo>,
    },
    /// The applicant learnt that this program, to which it proposed last, holds it no longer.
    Told {
        by: ProgNo,
    },
    /// The applicant stands here, and is held. Nothing changed.
    At {
        place: ProgNo,
    },
    /// The applicant stands nowhere and has no live entry left. Nothing changed.
    Out,
    /// The number isn't a single's. Nothing changed, and no lock was taken.
    Stranger,
}
