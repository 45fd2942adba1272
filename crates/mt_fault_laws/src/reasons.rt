ghost use Rattle.mt_fault_laws.specs.Reasons.{FaultsAreSo};

/// Each fault of a file is at one of its records, and has its reason there.
pub fn faults_are_so()
    ensures { FaultsAreSo }
{}
