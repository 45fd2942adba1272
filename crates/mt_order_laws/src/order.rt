ghost use Rattle.mt_order_laws.specs.Laws.{BestInAnyOrder, CoupleBlocksInAnyOrder, FitsInAnyOrder, OrdersAreOrders, RegistrationInAnyOrder, SingleBlocksInAnyOrder, StableInAnyOrder, WellFormedInAnyOrder};

/// A market stays well formed with some or all of its couples in another order.
pub fn well_formed_in_any_order()
    ensures { WellFormedInAnyOrder }
{}

/// The market of an accepted file stays one with some or all of its couples in another order.
pub fn registration_in_any_order()
    ensures { RegistrationInAnyOrder }
{}

/// The best match of the singles is the same in any order of the couples.
pub fn best_in_any_order()
    ensures { BestInAnyOrder }
{}

/// Whether a match fits is the same in any order of the couples that are not set aside.
pub fn fits_in_any_order()
    ensures { FitsInAnyOrder }
{}

/// Whether a match is stable is the same in any order of the couples that are not set aside.
pub fn stable_in_any_order()
    ensures { StableInAnyOrder }
{}

/// A couple blocks under its number in an order if it blocks under its own number.
pub fn couple_blocks_in_any_order()
    ensures { CoupleBlocksInAnyOrder }
{}

/// A single blocks in any order of the couples if it blocks in the order of registration.
pub fn single_blocks_in_any_order()
    ensures { SingleBlocksInAnyOrder }
{}

/// Each numbered order has each couple once.
pub fn orders_are_orders()
    ensures { OrdersAreOrders }
{}
