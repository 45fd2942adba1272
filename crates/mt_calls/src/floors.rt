//! The calls that match the singles, from a floor to workers.
ghost use Rattle.std.specs.Prelude.{◌≡◌, ◌+◌, ◌≤◌};
ghost use Rattle.mt_terms.specs.Market.{applicants};

use mt_crew::{Open, Singles, work, work_alone};
use mt_hall::{Hall, HallName};
use mt_market::Roster;
use mt_ranks::Ranks;
use mt_samples::markets::{CHAIN, SampleError};
use mt_samples::singles::singles;
use mt_samples::tables::with_ranks;
use mt_tally::{deal, settle, take_desk, take_pass};
use mt_terms::ProgNo;
use std::alloc::{AllocError, Global};
use std::marker::Brand;
use std::sync::Wait;
use std::sync::ledger::{Blank, Ledger};
use std::thread::Threads;

/// Where the chain of rejections ends.
fn is_end_of_chain(places: &[Option<ProgNo>]) -> bool {
    places == [Some(ProgNo(1)), Some(ProgNo(0)), None].as_slice()
}

/// Whether a floor ends in the best match.
pub fn finishes<T: Threads + Sync>(rt: &T, alloc: Global) -> Result<bool, SampleError> {
    with_ranks(rt, alloc, CHAIN, |roster, ranks| {
        let matched = singles(alloc, roster, ranks)?;
        Ok(is_end_of_chain(matched.places.as_slice()))
    })
}

// A share of a desk and one of a pass are dealt, and come back.
fn deals_in<K: Ledger>(alloc: Global, blank: Blank) -> Result<bool, SampleError>
    requires name { blank.name ≡ K.name }
    requires parts { (blank.parts ≡ K.parts) × (K.parts ≡ 2) }
{
    let (mut roll, mut desks, mut passes) = deal::<K>(alloc, blank, &[3], 1)?;
    let desk = desks.pop().unwrap();
    let pass = passes.pop().unwrap();
    desks.destroy_empty();
    passes.destroy_empty();
    take_desk(&mut roll, desk);
    take_pass(&mut roll, pass);
    Ok(settle(roll) == (3, 0))
}

/// Whether credits that are dealt come back.
pub fn deals(alloc: Global) -> Result<bool, SampleError> {
    deals_in::<Brand>(alloc, Blank::new(2))
}

// A hall is opened for two workers, and closed again.
fn closes_in<K: HallName>(alloc: Global, ranks: &Ranks, blank: Blank) -> Result<bool, AllocError>
    requires ranks { ranks.now ≡ K.ranked }
    requires name { blank.name ≡ K.name }
    requires parts { (blank.parts ≡ K.parts) × (K.parts ≡ applicants K.ranked.market + 2) }
{
    let (hall, passes) = Hall::<K>::open(alloc, ranks, 2, blank)?;
    let is_pair = passes.len() == 2;
    let audit = hall.close(passes);
    Ok(is_pair && audit.agrees && audit.astray.is_none())
}

fn closes_on(alloc: Global, ranks: &Ranks) -> Result<bool, AllocError> {
    let blank = Blank::new(ranks.applicants() as u64 + 2);
    closes_in::<Brand>(alloc, ranks, blank)
}

/// Whether a hall in which nothing happens agrees with its floor.
pub fn closes<T: Threads + Sync>(rt: &T, alloc: Global) -> Result<bool, SampleError> {
    with_ranks(rt, alloc, CHAIN, |_, ranks| closes_on(alloc, ranks))
}

// Whether the chain's best match was found, and the proposals on the way to it.
fn is_chain(singles: &Singles) -> bool {
    let is_count = singles.proposals.as_slice() == [3, 2].as_slice();
    is_end_of_chain(singles.matched.places.as_slice()) && is_count
}

/// Whether this number of workers ends in the best match.
pub fn works<T: Threads + Wait + Sync>(
    rt: &T,
    alloc: Global,
    workers: u32,
) -> Result<bool, SampleError>
    requires { (1 ≤ workers) × (workers ≤ 64) }
{
    with_ranks(
        rt,
        alloc,
        CHAIN,
        |_: &Roster, ranks: &Ranks<'_>| -> Result<bool, AllocError>
            requires { (1 ≤ workers) × (workers ≤ 64) }
        { Ok(is_chain(&work(rt, alloc, ranks, workers, &Open)?)) },
    )
}

/// Whether one thread without locks ends in the best match.
pub fn works_alone<T: Threads + Sync>(rt: &T, alloc: Global) -> Result<bool, SampleError> {
    with_ranks(rt, alloc, CHAIN, |_, ranks| {
        Ok(is_chain(&work_alone(alloc, ranks)?))
    })
}
