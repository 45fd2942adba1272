ghost use Rattle.mt_stability_laws.specs.Taken.{SingleTaken, PairTaken, SameProgramTaken, FirstAloneTaken, SecondAloneTaken, NeverTwiceAtOne, TakenInExamples};

/// A program would take a single that it chooses from those there and the single.
pub fn single_taken()
    ensures { SingleTaken }
{}

/// Two programs would take a couple exactly if each chooses its member, the couple taken out first.
pub fn pair_taken()
    ensures { PairTaken }
{}

/// One program would take both members of a couple exactly if it chooses both, the couple taken out first.
pub fn same_program_taken()
    ensures { SameProgramTaken }
{}

/// A pair with one member unplaced would be taken exactly if the other one's program chooses it, the couple taken out
/// first.
pub fn half_pair_taken()
    ensures first { FirstAloneTaken }
    ensures second { SecondAloneTaken }
{}

/// A pair that names one program twice is never taken at quota 0 or 1.
pub fn never_twice_at_one()
    ensures { NeverTwiceAtOne }
{}

/// Options of each kind, judged on the example markets.
pub fn taken_in_examples()
    ensures { TakenInExamples }
{}
