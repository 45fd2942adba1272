ghost use Rattle.mt_file_laws.specs.Registration.{AcceptedIsRegistration, VersionsAgree};

/// The market of an accepted file is well formed and within the limits, and its ids fit it.
pub fn accepted_is_registration()
    ensures { AcceptedIsRegistration }
{}

/// What is accepted as version 1 is accepted as version 2, and as the same market.
pub fn versions_agree()
    ensures { VersionsAgree }
{}
