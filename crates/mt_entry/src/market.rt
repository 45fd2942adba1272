use mt_market::Roster;
use mt_ranks::Ranks;

/// A market and its rank tables.
#[derive(Clone, Copy)]
pub struct RankedMarket<'a> {
    pub roster: &'a Roster,
    pub ranks: &'a Ranks<'a>,
}
