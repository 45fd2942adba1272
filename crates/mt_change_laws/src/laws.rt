ghost use Rattle.mt_change_laws.specs.Laws.{OneListChanges, OneQuotaChanges};

/// Another list in one applicant's record changes that list alone, or nothing if the applicant is withdrawn.
pub fn one_list_changes()
    ensures { OneListChanges }
{}

/// Another quota in one program's record changes that quota alone, or nothing if the program is withdrawn.
pub fn one_quota_changes()
    ensures { OneQuotaChanges }
{}
