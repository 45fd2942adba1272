/// Which of the two files something is said of.
#[derive(Clone, Copy)]
pub enum Source {
    /// The market: programs, applicants and couples with their lists.
    Market,
    /// The match that is judged.
    Match,
}
