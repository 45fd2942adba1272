ghost use Rattle.std.specs.Prelude.{◌≡◌, ℕ, ◌+◌, ◌*◌, ◌^◌, ◌<◌, ◌≤◌, ◌==◌, ◌||◌, false, length, slice_index_or, IfOk};
ghost use Rattle.mt_terms.specs.Lists.{has};
ghost use Rattle.mt_terms.specs.Market.{applicants, live_entries};
ghost use Rattle.mt_ranks.specs.Ranked.{ranked_of};
ghost use Rattle.mt_fault_text.specs.Mutual.{listed_by, mutual_entries, mutual_of_couple, place_in, sent_by};
ghost use Rattle.mt_fault_text.specs.Wanted.{AreWanted, is_place, set_of};

use mt_market::Roster;
use mt_ranks::Ranks;
use mt_terms::{AppNo, CoupleNo, ProgNo};
use std::alloc::{AllocError, Global};
use std::thread::Threads;

/// A place for each member of a couple.
type Pair = (Option<ProgNo>, Option<ProgNo>);

/// How many entries the live lists of all singles have.
fn live_entries(ranks: &Ranks<'_>) -> u64
    ensures count { result ≡ live_entries ranks.now.market }
    ensures few { result < 2 ^ 32 }
{
    let mut count = 0;
    for number in 0..ranks.applicants() {
        count += ranks.live(AppNo(number)).len() as u64;
    }
    count
}

/// The place of a pair for the first member, or for the second one.
fn place_in(pair: &Pair, is_first: bool) -> Option<ProgNo>
    ensures { result ≡ place_in is_first pair.now }
{
    if is_first { pair.0 } else { pair.1 }
}

/// Sets the flag of a place, if it is a program that has one.
fn note(wanted: &mut Vec<bool>, place: Option<ProgNo>)
    ensures len { length wanted.new.items ≡ length wanted.old.items }
    ensures said { (p : ℕ) → p < length wanted.old.items
        → set_of wanted.new.items p ≡ (set_of wanted.old.items p || is_place place p) }
{
    if let Some(program) = place {
        let index = program.index();
        if index < wanted.len() {
            wanted[index] = true;
        }
    }
}

/// For each number below `programs`, whether pairs send the first member to that program, or the second one.
fn wanted_programs(
    alloc: Global,
    programs: usize,
    pairs: &[Pair],
    is_first: bool,
) -> Result<Vec<bool>, AllocError>
    ensures { IfOk result (λ v. AreWanted programs (has (sent_by is_first pairs.now)) v.items) }
{
    let mut wanted = vec![in alloc; false; programs]?;
    for pair in pairs {
        note(&mut wanted, place_in(pair, is_first));
    }
    Ok(wanted)
}

/// How many programs that a member wants list it.
fn listed_by(ranks: &Ranks<'_>, wanted: &[bool], member: AppNo) -> u64
    requires wanted { length wanted.now ≡ length ranks.now.market.programs }
    requires member { member < applicants ranks.now.market }
    ensures count { result ≡ listed_by ranks.now.market (set_of wanted.now) member }
    ensures few { result ≤ length ranks.now.market.programs }
{
    let mut count = 0;
    for number in 0..ranks.programs() {
        if wanted[number as usize] && ranks.rank(ProgNo(number), member).is_some() {
            count += 1;
        }
    }
    count
}

/// How many programs list a member of a couple, of those to which its pairs send that member.
fn mutual_of_couple(
    alloc: Global,
    roster: &Roster,
    ranks: &Ranks<'_>,
    couple: CoupleNo,
) -> Result<u64, AllocError>
    requires ranks { ranks.now ≡ ranked_of roster.now.market }
    requires couple { couple < length roster.now.market.couples }
    ensures count { IfOk result (λ n. n ≡ mutual_of_couple roster.now.market couple) }
    ensures few { IfOk result (λ n. n ≤ 40000) }
{
    roster.is_of_a_file();
    let programs = roster.programs() as usize;
    let pairs = roster.couple_list(couple);
    let (first, second) = roster.members(couple);
    let of_first = wanted_programs(alloc, programs, pairs, true)?;
    let of_second = wanted_programs(alloc, programs, pairs, false)?;
    Ok(listed_by(ranks, &of_first, first) + listed_by(ranks, &of_second, second))
}

/// How many programs and applicants want each other. The error is want of memory.
pub(crate) fn mutual_entries<T: Threads + Sync>(
    rt: &T,
    alloc: Global,
    roster: &Roster,
) -> Result<u64, AllocError>
    ensures { IfOk result (λ n. n ≡ mutual_entries roster.now.market) }
{
    let ranks = Ranks::build(rt, alloc, roster)?;
    let mut count = live_entries(&ranks);
    for number in 0..roster.couples() {
        count += mutual_of_couple(alloc, roster, &ranks, CoupleNo(number))?;
    }
    Ok(count)
}
