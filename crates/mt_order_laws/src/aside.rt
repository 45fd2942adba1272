ghost use Rattle.mt_order_laws.specs.Laws.{AnewIsGoingOn, EnteringInWords, EntriesBeforeAlike, NoneAside, OthersAreOrder, OthersEnd, RegistrationAside, WellFormedAside};

/// A market stays well formed if couples are set aside.
pub fn well_formed_aside()
    ensures { WellFormedAside }
{}

/// The market of an accepted file stays one if couples are set aside.
pub fn registration_aside()
    ensures { RegistrationAside }
{}

/// If no couple is set aside, the market is as it was.
pub fn none_aside()
    ensures { NoneAside }
{}

/// The couples that are not set aside are an order of those that are not set aside.
pub fn others_are_order()
    ensures { OthersAreOrder }
{}

/// The couples up to a place in an order enter alike whatever couples come after them.
pub fn entries_before_alike()
    ensures { EntriesBeforeAlike }
{}

/// To begin anew without a couple gives what going on from the match before its entry gives.
pub fn anew_is_going_on()
    ensures { AnewIsGoingOn }
{}

/// The couple that is entering at the end is one whose rounds don't end within what the couples before it leave of the
/// budget.
pub fn entering_in_words()
    ensures { EnteringInWords }
{}

/// Once couples are set aside in turn, the rounds of the others end.
pub fn others_end()
    ensures { OthersEnd }
{}
