ghost use Rattle.mt_applicant_laws.specs.Laws.{NoneGainsByAnotherList, NoStableMatchGivesMore, MorePostsHurtNone, ShorterListHurtsNoOther, OneLessHurtsNoOther, LongerListKeepsBest};

/// No applicant gains by another list, in the best match or in any match that is stable with that list.
pub fn none_gains_by_another_list()
    ensures law { NoneGainsByAnotherList }
    ensures any_stable { NoStableMatchGivesMore }
{}

/// More posts at a program hurt no applicant.
pub fn more_posts_hurt_none()
    ensures { MorePostsHurtNone }
{}

/// A list that is cut short, or emptied, hurts no other applicant.
pub fn shorter_list_hurts_no_other()
    ensures law { ShorterListHurtsNoOther }
    ensures one_less { OneLessHurtsNoOther }
{}

/// Programs that a placed applicant adds at the end of its list change nothing.
pub fn longer_list_keeps_best()
    ensures { LongerListKeepsBest }
{}
