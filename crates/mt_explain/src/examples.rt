//! What explanations say of small markets. Each function does nothing. Its contract is the example.

ghost use Rattle.mt_explain.specs.Examples.{HalfPair, OneSided, OwnSeat, SingleBetween, TwoPosts};

/// Two posts for three applicants.
pub fn two_posts()
    ensures { TwoPosts }
{}

/// A single between the members of a couple.
pub fn single_between()
    ensures { SingleBetween }
{}

/// Entries that are not mutual.
pub fn one_sided()
    ensures { OneSided }
{}

/// A couple's own post, open to its other member.
pub fn own_seat()
    ensures { OwnSeat }
{}

/// A pair with one member unplaced.
pub fn half_pair()
    ensures { HalfPair }
{}
