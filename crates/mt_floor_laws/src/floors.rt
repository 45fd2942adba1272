ghost use Rattle.mt_floor_laws.specs.Floors.{ResultOfFloor, OpeningIsStrict, LegalFromPassed, EventKeepsRecorded, EventKeepsLegal, EventKeepsStrict, EventsKeepRecorded, EventsKeepLegal, EventsKeepStrict, EventNotDue, EventDue, DueAtMost, QuietIsReached, DueProposalsAreMade, MadeAtMost, StrictBest, ChainHasStrictEnd, BestExists, QuietCounts, OrderFree, ChainInTwoOrders};

/// Each floor has one result, with one place for each applicant.
pub fn result_of_floor()
    ensures { ResultOfFloor }
{}

/// The opening floor is strict.
pub fn opening_is_strict()
    ensures { OpeningIsStrict }
{}

/// A recorded floor is legal if each program that an applicant has passed is excluded for it.
pub fn legal_from_passed()
    ensures { LegalFromPassed }
{}

/// An event keeps a floor recorded.
pub fn event_keeps_recorded()
    ensures { EventKeepsRecorded }
{}

/// An event keeps a floor legal.
pub fn event_keeps_legal()
    ensures { EventKeepsLegal }
{}

/// An event keeps a floor strict.
pub fn event_keeps_strict()
    ensures { EventKeepsStrict }
{}

/// A list of events keeps a floor recorded.
pub fn events_keep_recorded()
    ensures { EventsKeepRecorded }
{}

/// A list of events keeps a floor legal.
pub fn events_keep_legal()
    ensures { EventsKeepLegal }
{}

/// A list of events keeps a floor strict.
pub fn events_keep_strict()
    ensures { EventsKeepStrict }
{}

/// An event that isn't due changes nothing, and the reply says so.
pub fn event_not_due()
    ensures { EventNotDue }
{}

/// An event that is due gets another reply.
pub fn event_due()
    ensures { EventDue }
{}

/// No list of events has more due ones than twice the live entries.
pub fn due_at_most()
    ensures { DueAtMost }
{}

/// From each recorded floor, some list of events ends on a floor on which no event is due.
pub fn quiet_is_reached()
    ensures { QuietIsReached }
{}

/// The number of proposals made rises by the due proposals.
pub fn due_proposals_are_made()
    ensures { DueProposalsAreMade }
{}

/// No more proposals are made than there are live entries.
pub fn made_at_most()
    ensures { MadeAtMost }
{}

/// A strict floor on which no event is due has the best match as its result.
pub fn strict_best()
    ensures law { StrictBest }
    ensures example { ChainHasStrictEnd }
{}

/// A well-formed market has a best match of its singles.
pub fn best_exists()
    ensures { BestExists }
{}

/// On a floor on which no event is due, the proposals are those on the way to its result.
pub fn quiet_counts()
    ensures { QuietCounts }
{}

/// In whatever order events come, they end in the same proposals and in the best match.
pub fn order_free()
    ensures law { OrderFree }
    ensures example { ChainInTwoOrders }
{}
