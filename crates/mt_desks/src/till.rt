ghost use Rattle.std.specs.Prelude.{◌≡◌, ◌<◌, ◌^◌};
ghost use Rattle.mt_terms.specs.Market.{live_entries};
ghost use Rattle.mt_tally.specs.Tally.{all_dealt};

use crate::name::HallName;
use mt_tally::Roll;

/// The book of all credits: as many as there are live entries, all of them dealt, and none taken in.
pub struct Till<K: HallName> {
    pub(crate) roll: Roll<K>,
    pub ghost whole: { roll ≡ all_dealt (live_entries K.ranked.market) },
    pub ghost few: { live_entries K.ranked.market < 2 ^ 32 },
}

impl<K: HallName> Till<K> {
    /// Ends the till, and gives the book of all credits.
    pub fn into_roll(self) -> Roll<K>
        ensures { result ≡ all_dealt (live_entries K.ranked.market) }
    {
        let Till { roll } = self;
        roll
    }
}
