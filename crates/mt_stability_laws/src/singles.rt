ghost use Rattle.mt_stability_laws.specs.Singles.{ChoiceInWords, GrowingChoice, NoneComesBack, StabilityOfSingles, Exclusion, ExclusionByQuota, BestIsUnique, BestIsAtLeast, WellFormedTest, ChosenForTwoPosts, ExcludedInChain};

/// A program chooses each applicant that is on its list and of the set, and has fewer than quota of the set above it.
pub fn choice_in_words()
    ensures { ChoiceInWords }
{}

/// The choice of a set with one member more is of the old choice and that member.
pub fn growing_choice()
    ensures { GrowingChoice }
{}

/// Nobody who fell out of a program's choice comes back as the set grows.
pub fn none_comes_back()
    ensures { NoneComesBack }
{}

/// A match of the singles is stable exactly if it fits both sides' lists and the quotas, and no program that a single
/// wants more would choose it.
pub fn stability_of_singles()
    ensures { StabilityOfSingles }
{}

/// The set has singles that have only excluded programs above this one on their live lists. Each of them that this
/// program doesn't choose from the set is in no stable match here.
pub fn exclusion()
    ensures { Exclusion }
{}

/// An applicant with quota or more of such a set above it is in no stable match here.
pub fn exclusion_by_quota()
    ensures { ExclusionByQuota }
{}

/// No more than one match is best, since lists are strict.
pub fn best_is_unique()
    ensures { BestIsUnique }
{}

/// The best match places each single at least as well as any stable match does.
pub fn best_is_at_least()
    ensures { BestIsAtLeast }
{}

/// The test of a well-formed market tests just that.
pub fn well_formed_test()
    ensures { WellFormedTest }
{}

/// A program's choice as its set grows.
pub fn chosen_for_two_posts()
    ensures { ChosenForTwoPosts }
{}

/// Exclusion applied twice, in the market of the rejection chain.
pub fn excluded_in_chain()
    ensures { ExcludedInChain }
{}
