ghost use Rattle.std.specs.Prelude.{◌≡◌, ◌+◌, map, length, IfOk};
ghost use Rattle.mt_core.specs.Floors.{IsOpenedWith, floor_of};
ghost use Rattle.mt_terms.specs.Best.{IsBest, proposals};
ghost use Rattle.mt_terms.specs.Floor.{IsLegal, proposals_made};
ghost use Rattle.mt_terms.specs.Lists.{below, count_below};
ghost use Rattle.mt_terms.specs.Market.{applicants};
ghost use Rattle.mt_crew.specs.Closings.{all_on_the_way};

use mt_core::{Floor, finish, received, result};
use mt_ranks::Ranks;
use mt_terms::{Match, ProgNo};
use std::alloc::{AllocError, Global};

/// The match of the singles, couples' members unplaced, and how many proposals each program received.
#[derive(Drop)]
pub struct Singles {
    pub matched: Match,
    pub proposals: Vec<u32>,
}

/// How many proposals each program has received.
fn all_received(alloc: Global, floor: &Floor, ranks: &Ranks) -> Result<Vec<u32>, AllocError>
    requires { IsOpenedWith ranks.now.market floor.now }
    ensures { let m = ranks.now.market in IfOk result (λ v. v.items
        ≡ map (λ p. count_below ((floor_of m floor.now).received p) (applicants m)) (below (length m.programs))) }
{
    let mut counts = Vec::with_capacity(alloc, ranks.programs() as usize)?;
    for program in 0..ranks.programs() {
        counts.push(received(floor, ProgNo(program)))?;
    }
    Ok(counts)
}

/// The best match in which a legal floor ends, and the proposals on the way to it. The number is that of the
/// proposals that were left to be made on the floor.
pub(crate) fn singles_of(
    alloc: Global,
    floor: &mut Floor,
    ranks: &Ranks,
) -> Result<(Singles, u64), AllocError>
    requires opened { IsOpenedWith ranks.now.market floor.old }
    requires legal { IsLegal ranks.now.market (floor_of ranks.now.market floor.old) }
    ensures best { IfOk result (λ s. IsBest ranks.now.market s.0.matched.places) }
    ensures proposals { IfOk result (λ s. s.0.proposals.items
        ≡ map (proposals ranks.now.market s.0.matched.places) (below (length ranks.now.market.programs))) }
    ensures late { let m = ranks.now.market in IfOk result (λ s.
        all_on_the_way m s.0.matched.places ≡ proposals_made m (floor_of m floor.old) + s.1) }
{
    let late = finish(floor, ranks);
    let matched = result(alloc, floor, ranks)?;
    let proposals = all_received(alloc, floor, ranks)?;
    Ok((Singles { matched, proposals }, late))
}

/// The best match of the singles and the proposals on the way to it, made by the calling thread alone. It is what
/// `work` answers with any number of workers. It opens no hall, takes no lock and passes no gate, so for one worker
/// it is the cheaper call. Its one error is that there isn't enough memory.
pub fn work_alone(alloc: Global, ranks: &Ranks) -> Result<Singles, AllocError>
    ensures best { IfOk result (λ s. IsBest ranks.now.market s.matched.places) }
    ensures proposals { IfOk result (λ s. s.proposals.items
        ≡ map (proposals ranks.now.market s.matched.places) (below (length ranks.now.market.programs))) }
{
    let mut floor = Floor::open(alloc, ranks)?;
    let (singles, _) = singles_of(alloc, &mut floor, ranks)?;
    Ok(singles)
}
