ghost use Rattle.mt_answer_laws.specs.FileLaws.{HigherQuotaInFileHurtsNone, NoCalledMatchGivesMore, NoneGainsByAnotherRecord, OneLessInFileHurtsNoOther};
ghost use Rattle.mt_answer_laws.specs.Laws.{PublishedAsideIsJudged, PublishedIsCalledStable, PublishedIsReadBack};

/// What is published for a file is called stable for that file, and is read as the match that was published.
pub fn published_is_called_stable()
    ensures law { PublishedIsCalledStable }
    ensures read_back { PublishedIsReadBack }
{}

/// A text with couples set aside is called stable exactly if its match is stable with them set aside.
pub fn published_aside_is_judged()
    ensures { PublishedAsideIsJudged }
{}

/// Without couples, no applicant gains by another list in its record, in the match that is published or in any match
/// that is called stable.
pub fn none_gains_by_another_record()
    ensures law { NoneGainsByAnotherRecord }
    ensures any_stable { NoCalledMatchGivesMore }
{}

/// Without couples, an applicant whose record lists nothing any more hurts no other applicant.
pub fn one_less_in_file_hurts_no_other()
    ensures { OneLessInFileHurtsNoOther }
{}

/// Without couples, a higher quota in a program's record hurts no applicant.
pub fn higher_quota_in_file_hurts_none()
    ensures { HigherQuotaInFileHurtsNone }
{}
