/// How many programs there are of each kind. Each program is of one of them.
#[derive(Clone, Copy)]
pub struct ProgramCounts {
    /// Those without an open post. A program of quota 0 has none.
    pub full: u32,
    /// Those with an open post and somebody.
    pub partly_filled: u32,
    /// Those with an open post and nobody.
    pub empty: u32,
}

/// Where a program stands.
#[derive(Clone, Copy)]
pub struct Standing {
    pub quota: u32,
    /// How many applicants are placed there.
    pub filled: u32,
    /// How many applicants it lists.
    pub listed: u64,
    /// The rank from 0 of the last one in, if it lists somebody that is placed there.
    pub last: Option<u32>,
}
