ghost use Rattle.mt_orders.specs.Laws.{FewestInWords, OneOrderAside, RanksInAnyOrder};

/// The rank tables of a market are the same in any order of all couples.
pub fn ranks_in_any_order()
    ensures { RanksInAnyOrder }
{}

/// In none of some orders fewer couples are set aside than in the one that is used.
pub fn fewest_in_words()
    ensures { FewestInWords }
{}

/// In the order of registration the couples that are set aside are those of the market as it is.
pub fn one_order_aside()
    ensures { OneOrderAside }
{}
