//! Laws of the answer: of the ways in which couples may enter. Each function does nothing. Its contract is the law.

ghost use Rattle.mt_answer.specs.WayLaws.{AsideAreCouples, AsideInWords, FirstOrderInWords, NoOrderInWords, OneAnswerInWays, OneWayIsUsual, PublishedInWaysIsStable, SpentInWays};

/// With one order, and no couple set aside, the answer is the usual one.
pub fn one_way_is_usual()
    ensures { OneWayIsUsual }
{}

/// The order that is used ends, and none of those before it does.
pub fn first_order_in_words()
    ensures { FirstOrderInWords }
{}

/// No order is used exactly if none of them ends.
pub fn no_order_in_words()
    ensures { NoOrderInWords }
{}

/// The budget is spent exactly if no order ends within it and no couple may be set aside.
pub fn spent_in_ways()
    ensures { SpentInWays }
{}

/// Each couple that is set aside in turn is the one that is entering at the end, once those before it are set aside.
pub fn aside_in_words()
    ensures { AsideInWords }
{}

/// The couples that are set aside in an order are couples of the market, each once.
pub fn aside_are_couples()
    ensures { AsideAreCouples }
{}

/// What is published is stable, and stable in the market of the others if couples are set aside.
pub fn published_in_ways_is_stable()
    ensures { PublishedInWaysIsStable }
{}

/// A market has one answer.
pub fn one_answer_in_ways()
    ensures { OneAnswerInWays }
{}
