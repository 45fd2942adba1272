ghost use Rattle.std.specs.Prelude.{◌≡◌, ◌<◌, IfOk, IsTrue};
ghost use Rattle.mt_terms.specs.Market.{applicants};
ghost use Rattle.mt_terms.specs.Best.{IsBest};
ghost use Rattle.mt_terms.specs.Floor.{IsRecorded, IsLegal, is_settled, is_quiet};
ghost use Rattle.mt_terms.specs.Floor.{place_on, HasProposalsOf};
ghost use Rattle.mt_ranks.specs.Ranked.{IsRanked};
ghost use Rattle.mt_core.specs.Calls.{result_on};
ghost use Rattle.mt_core.specs.Floors.{floor_of, IsOpenedWith};

use crate::floor::{Floor, made};
use crate::step::{is_held, last_proposed_to};
use mt_ranks::Ranks;
use mt_terms::{AppNo, Match, Places, ProgNo};
use std::alloc::{AllocError, Global};

/// Whether no event is due for the applicant.
fn is_settled(floor: &Floor, ranks: &Ranks, applicant: AppNo) -> bool
    requires opened { IsOpenedWith ranks.now.market floor.now }
    requires ranked { IsRanked ranks.now }
    requires applicant { applicant < applicants ranks.now.market }
    ensures { let m = ranks.now.market in result ≡ is_settled m (floor_of m floor.now) applicant }
{
    if floor.stands(applicant) {
        is_held(floor, ranks, applicant)
    } else {
        made(floor, applicant) as usize == ranks.live(applicant).len()
    }
}

/// Whether no event is due.
pub fn quiet(floor: &Floor, ranks: &Ranks) -> bool
    requires opened { IsOpenedWith ranks.now.market floor.now }
    ensures { let m = ranks.now.market in result ≡ is_quiet m (floor_of m floor.now) }
{
    (0..ranks.applicants()).all(|applicant| is_settled(floor, ranks, AppNo(applicant)))
}

/// Where the applicant is: at the program that it proposed to last if it stands, else nowhere.
fn place(floor: &Floor, ranks: &Ranks, applicant: AppNo) -> Option<ProgNo>
    requires opened { IsOpenedWith ranks.now.market floor.now }
    requires ranked { IsRanked ranks.now }
    requires applicant { applicant < applicants ranks.now.market }
    ensures { let m = ranks.now.market in result ≡ place_on m (floor_of m floor.now) applicant }
{
    if !floor.stands(applicant) {
        return None;
    }
    let entry = last_proposed_to(floor, ranks, applicant)?;
    Some(entry.program)
}

/// The match on a floor on which no event is due: everybody that stands is at the program that it proposed to
/// last. The only error is want of memory.
pub fn result(alloc: Global, floor: &Floor, ranks: &Ranks) -> Result<Match, AllocError>
    requires opened { IsOpenedWith ranks.now.market floor.now }
    requires quiet { IsTrue (is_quiet ranks.now.market (floor_of ranks.now.market floor.now)) }
    ensures places { IfOk result (λ found. found.places ≡ result_on ranks.now.market floor.now) }
    ensures best { let m = ranks.now.market in IsLegal m (floor_of m floor.now)
        → IfOk result (λ found. IsBest m found.places) }
    ensures proposals { let m = ranks.now.market in IsRecorded m (floor_of m floor.now)
        → IfOk result (λ found. HasProposalsOf m (floor_of m floor.now) found.places) }
{
    let mut places = Vec::with_capacity(alloc, ranks.applicants() as usize)?;
    for applicant in 0..ranks.applicants() {
        places.push(place(floor, ranks, AppNo(applicant)))?;
    }
    Ok(Match {
        places: Places::new(places),
    })
}
