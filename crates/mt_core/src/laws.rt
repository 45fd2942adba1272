//! Laws of events over the whole floor: each is the contract of a function that does nothing.
ghost use Rattle.mt_core.specs.Examples.{ChainEnds};
ghost use Rattle.mt_core.specs.Order.{OrderFree};

/// Events end in the same proposals and in the best match, in whatever order they come from the opening floor until
/// none is due. Each program has then received as many proposals as on the way to that match. An example meets all
/// that the law and the calls on a floor require.
pub fn order_free()
    ensures law { OrderFree }
    ensures example { ChainEnds }
{}
