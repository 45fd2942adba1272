/// What an explanation is asked for.
#[derive(Clone, Copy)]
pub struct Asked<'a> {
    /// The ids of the agents, or none for all of them.
    pub ids: &'a [String],
    /// Whether ranks, quotas and numbers of applicants are left out.
    pub is_public: bool,
}
