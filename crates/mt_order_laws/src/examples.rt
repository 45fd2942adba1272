ghost use Rattle.mt_order_laws.specs.Examples.{AsideInExamples, OrdersInExamples};

/// The orders of some couples, by the numbers that a program written apart gives.
pub fn orders_in_examples()
    ensures { OrdersInExamples }
{}

/// The couples that are set aside in small markets.
pub fn aside_in_examples()
    ensures { AsideInExamples }
{}
