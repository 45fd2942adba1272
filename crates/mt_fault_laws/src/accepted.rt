ghost use Rattle.mt_fault_laws.specs.Accepted.{NamedFaultIsAmong, NoFaultMeansAccepted};

/// A file has no fault if and only if it is accepted.
pub fn no_fault_means_accepted()
    ensures { NoFaultMeansAccepted }
{}

/// The fault that a match of a file names is among all its faults, and the first of them in the order of the match.
pub fn named_fault_is_among()
    ensures { NamedFaultIsAmong }
{}
