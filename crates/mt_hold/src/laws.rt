//! What a holding by ranks says of the program's own list of applicants, whatever that list is.
ghost use Rattle.mt_hold.specs.Laws.{HeldIsChoice, OpenedIsEmpty, ReceiveAddsOne, CountIsMembers, CountIsSize};

/// A rank is held exactly if the applicant at that rank is in the program's choice from all that it received. The
/// list has no applicant twice.
pub fn held_is_choice()
    ensures { HeldIsChoice }
{}

/// A holding that was just opened is that of a program that has received nobody.
pub fn opened_is_empty()
    ensures { OpenedIsEmpty }
{}

/// A proposal from a rank adds the applicant at that rank to those received, and no other.
pub fn receive_adds_one()
    ensures { ReceiveAddsOne }
{}

/// As many ranks are received as there are applicants on the list from whom a proposal was received.
pub fn count_is_members()
    ensures { CountIsMembers }
{}

/// If all applicants that propose are on the list and below a bound, as many ranks are received as there are such
/// applicants. The list has no applicant twice.
pub fn count_is_size()
    ensures { CountIsSize }
{}
