ghost use Rattle.std.specs.Prelude.{◌≡◌, ◌<◌, length, slice_get, Some, true};
ghost use Rattle.mt_terms.specs.Market.{applicants, live};
ghost use Rattle.mt_ranks.specs.Ranked.{IsRank, IsRanked, ranking_of};
ghost use Rattle.mt_desks.specs.Singles.{is_single};

use mt_ranks::{Live, Ranks};
use mt_terms::AppNo;

/// Whether the applicant is a single. A single is an applicant.
pub fn is_single(ranks: &Ranks, applicant: AppNo) -> bool
    ensures single { result ≡ is_single ranks.now applicant }
    ensures known { result ≡ true → applicant < applicants ranks.now.market }
{
    ranks.applicants();
    ranks.is_single(applicant)
}

/// How many entries the applicant's live list has.
pub fn live_len(ranks: &Ranks, applicant: AppNo) -> u32
    requires { applicant < applicants ranks.now.market }
    ensures { result ≡ length (live ranks.now.market applicant) }
{
    ranks.applicants();
    ranks.live(applicant).len() as u32
}

/// The entry at a place of the applicant's live list.
pub fn entry_at(ranks: &Ranks, applicant: AppNo, place: u32) -> Live
    requires applicant { applicant < applicants ranks.now.market }
    requires place { place < length (live ranks.now.market applicant) }
    ensures program { slice_get (live ranks.now.market applicant) place ≡ Some result.program }
    ensures in_market { result.program < length ranks.now.market.programs }
    ensures rank { IsRank (ranking_of ranks.now.market result.program) applicant result.rank }
    ensures ranked { IsRanked ranks.now }
{
    ranks.applicants();
    ranks.live(applicant)[place as usize].unpacked()
}
