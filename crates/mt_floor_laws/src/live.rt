ghost use Rattle.mt_floor_laws.specs.Live.{LiveMarketAgrees, NothingIsLive};

/// A market and its live market have the same stable matches of the singles, the same best one, and the same
/// numbers of proposals on the way there.
pub fn live_market_agrees()
    ensures law { LiveMarketAgrees }
    ensures example { NothingIsLive }
{}
