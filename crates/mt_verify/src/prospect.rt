/// How an applicant would fare at a program that lists it.
#[derive(Clone, Copy, Debug, PartialEq, Eq)]
pub struct Prospect {
    /// The applicant's rank on the program's list: its position from 0.
    pub rank: u32,
    /// How many of those placed at the program it ranks above the applicant.
    pub ahead: u32,
}
