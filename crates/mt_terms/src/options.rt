/// The options of a run.
#[derive(Clone, Copy, Debug, PartialEq, Eq)]
pub struct Options {
    /// How many workers match the singles, 1 to 64. The result doesn't depend on it.
    pub workers: u32,
    /// How many rounds the couples' stage may take, at least 1.
    pub budget: u32,
}
