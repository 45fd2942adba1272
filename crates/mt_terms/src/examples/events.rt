ghost use Rattle.mt_terms.specs.Examples.Events.{TwoOrders};

/// The replies differ with the order. The proposals made and the quiet end do not.
pub fn proposals_in_two_orders()
    ensures { TwoOrders }
{}
