/// What an input may hold at most.
#[derive(Clone, Copy)]
pub struct Limits {
    /// Bytes of the input.
    pub bytes: usize,
    /// Applicants, members of couples included.
    pub applicants: u32,
    /// Programs.
    pub programs: u32,
    /// Couples.
    pub couples: u32,
    /// Ids in all lists. A pair counts as two.
    pub entries: u32,
    /// Bytes of an id.
    pub id_bytes: usize,
    /// Posts of a program.
    pub quota: u32,
    /// Workers that match the singles.
    pub workers: u32,
}

/// The limits of version 1 of the file format.
pub const LIMITS: Limits = Limits {
    bytes: 67_108_864,
    applicants: 100_000,
    programs: 20_000,
    couples: 10_000,
    entries: 4_000_000,
    id_bytes: 32,
    quota: 9_999,
    workers: 64,
};

/// The limits of version 2 of the file format.
pub const LIMITS_2: Limits = Limits {
    bytes: 67_108_864,
    applicants: 100_000,
    programs: 20_000,
    couples: 10_000,
    entries: 8_000_000,
    id_bytes: 64,
    quota: 9_999,
    workers: 64,
};
