//! The code of what is asked for and isn't there.

/// A word that names no agent of the market.
pub const NO_SUCH_AGENT: u16 = 56;
