ghost use Rattle.std.specs.Prelude.{◌≡◌, ◌^◌, ◌+◌, ◌<◌, ◌≤◌, All, IfOk, ℕ, length, map, replicate, sum, vec_capacity, vec_len};
ghost use Rattle.mt_terms.specs.Lists.{below};
ghost use Rattle.mt_terms.specs.Market.{applicants, live, live_entries};
ghost use Rattle.mt_desks.specs.Openings.{unused_pass};

use crate::desk::Desk;
use crate::door::Door;
use crate::entries::live_len;
use crate::name::HallName;
use crate::pass::Pass;
use crate::till::Till;
use mt_hold::Hold;
use mt_ranks::Ranks;
use mt_tally::{DeskShare, PassShare, deal};
use mt_terms::{AppNo, ProgNo};
use std::alloc::{AllocError, Global};
use std::marker::PhantomData;
use std::sync::Mutex;
use std::sync::ledger::Blank;

/// How many live entries each applicant has. Its desk is dealt as many credits.
fn credits_of(alloc: Global, ranks: &Ranks) -> Result<Vec<u32>, AllocError>
    ensures each { IfOk result (λ credits. credits.items
        ≡ map (λ a. length (live ranks.now.market a)) (below (applicants ranks.now.market))) }
    ensures all { IfOk result (λ credits. sum credits.items ≡ live_entries ranks.now.market) }
    ensures few { live_entries ranks.now.market < 2 ^ 32 }
{
    let mut credits = Vec::with_capacity(alloc, ranks.applicants() as usize)?;
    for applicant in 0..ranks.applicants() {
        credits.push(live_len(ranks, AppNo(applicant)))?;
    }
    Ok(credits)
}

/// A program's door, which has received nobody.
fn open_door<K: HallName>(
    alloc: Global,
    ranks: &Ranks,
    program: ProgNo,
) -> Result<Door<K>, AllocError>
    requires ranks { ranks.now ≡ K.ranked }
    requires program { program < length K.ranked.market.programs }
{
    ranks.programs();
    let list_len = ranks.by_rank(program).len() as u32;
    Ok(Door {
        program,
        hold: Hold::open(alloc, ranks.quota(program), list_len)?,
        name: PhantomData,
    })
}

/// A door for each program, in the order of their numbers.
pub fn open_doors<K: HallName>(
    alloc: Global,
    ranks: &Ranks,
) -> Result<Vec<Mutex<Door<K>>>, AllocError>
    requires { ranks.now ≡ K.ranked }
    ensures { IfOk result (λ doors. vec_len doors ≡ length K.ranked.market.programs) }
{
    let mut doors = Vec::with_capacity(alloc, ranks.programs() as usize)?;
    for program in 0..ranks.programs() {
        doors.push(Mutex::new(open_door::<K>(alloc, ranks, ProgNo(program))?))?;
    }
    Ok(doors)
}

/// A desk for each applicant, in the order of their numbers, with its share of credits.
fn seat<K: HallName>(desks: &mut Vec<Mutex<Desk<K>>>, shares: Vec<DeskShare<K>>)
    requires shares { shares.items
        ≡ map (λ a. length (live K.ranked.market a)) (below (applicants K.ranked.market)) }
    requires few { applicants K.ranked.market < 2 ^ 32 }
    requires room { (vec_len desks.old ≡ 0)
        × (applicants K.ranked.market ≤ vec_capacity desks.old) }
    ensures { vec_len desks.new ≡ applicants K.ranked.market }
{
    let mut applicant: u32 = 0;
    let mut shares = shares.into_iter();
    'seats: while let Some(credits) = shares.next() {
        desks.push_reserved(Mutex::new(Desk {
            applicant: AppNo(applicant),
            made: 0,
            standing: false,
            credits,
        }));
        applicant += 1;
    }
    shares.destroy_empty();
}

/// The counts of a pass.
#[derive(Drop)]
struct Counts {
    by_program: Vec<u32>,
    by_applicant: Vec<u32>,
}

/// Counts of nothing, for each worker.
fn open_counts(
    alloc: Global,
    programs: u32,
    applicants: u32,
    workers: u32,
) -> Result<Vec<Counts>, AllocError>
    ensures len { IfOk result (λ counts. vec_len counts ≡ workers) }
    ensures nothing { IfOk result (λ counts. All (λ c. (c.by_program.items ≡ replicate programs 0)
        × (c.by_applicant.items ≡ replicate applicants 0)) counts.items) }
{
    let mut counts = Vec::with_capacity(alloc, workers as usize)?;
    for _worker in 0..workers {
        counts.push(Counts {
            by_program: vec![in alloc; 0; programs as usize]?,
            by_applicant: vec![in alloc; 0; applicants as usize]?,
        })?;
    }
    Ok(counts)
}

/// A pass for each share, with counts of nothing.
fn seat_passes<K: HallName>(
    passes: &mut Vec<Pass<K>>,
    shares: Vec<PassShare<K>>,
    counts: Vec<Counts>,
)
    requires shares { All (λ n. n ≡ 0) shares.items }
    requires one_each { vec_len counts ≡ vec_len shares }
    requires counts { All (λ c. (c.by_program.items ≡ replicate (length K.ranked.market.programs) 0)
        × (c.by_applicant.items ≡ replicate (applicants K.ranked.market) 0)) counts.items }
    requires room { (vec_len passes.old ≡ 0) × (vec_len shares ≤ vec_capacity passes.old) }
    ensures passes { vec_len passes.new ≡ vec_len shares }
    ensures unused { All (λ pass. pass ≡ unused_pass K.ranked.market) passes.new.items }
{
    let mut shares = shares.into_iter();
    let mut counts = counts.into_iter();
    'passes: while let Some(credits) = shares.next() {
        match counts.next() {
            Some(
                Counts {
                    by_program,
                    by_applicant,
                },
            ) => passes.push_reserved(Pass {
                credits,
                by_program,
                by_applicant,
                contended_locks: 0,
            }),
            None => unreachable!(),
        }
    }
    shares.destroy_empty();
}

/// No desks and no passes, with room for these numbers of them.
fn empty_seats<K: HallName>(
    alloc: Global,
    applicants: u32,
    workers: u32,
) -> Result<(Vec<Mutex<Desk<K>>>, Vec<Pass<K>>), AllocError>
    ensures desks { IfOk result
        (λ seats. (vec_len seats.0 ≡ 0) × (applicants ≤ vec_capacity seats.0)) }
    ensures passes { IfOk result
        (λ seats. (vec_len seats.1 ≡ 0) × (workers ≤ vec_capacity seats.1)) }
{
    let desks: Vec<Mutex<Desk<K>>> = Vec::with_capacity(alloc, applicants as usize)?;
    match Vec::with_capacity(alloc, workers as usize) {
        Ok(passes) => Ok((desks, passes)),
        Err(refused) => {
            desks.destroy_empty();
            Err(refused)
        }
    }
}

/// The till of all credits, and the desks and the passes that they are dealt to.
pub fn deal_out<K: HallName>(
    alloc: Global,
    ranks: &Ranks,
    workers: u32,
    blank: Blank,
) -> Result<(Till<K>, Vec<Mutex<Desk<K>>>, Vec<Pass<K>>), AllocError>
    requires ranks { ranks.now ≡ K.ranked }
    requires name { blank.name ≡ K.name }
    requires parts { (blank.parts ≡ K.parts) × (K.parts ≡ applicants K.ranked.market + workers) }
    requires workers { 1 ≤ workers }
    ensures desks { IfOk result (λ dealt. vec_len dealt.1 ≡ applicants K.ranked.market) }
    ensures passes { IfOk result (λ dealt. vec_len dealt.2 ≡ workers) }
    ensures unused { IfOk result
        (λ dealt. All (λ pass. pass ≡ unused_pass K.ranked.market) dealt.2.items) }
{
    let applicants = ranks.applicants();
    let credits = credits_of(alloc, ranks)?;
    let counts = open_counts(alloc, ranks.programs(), applicants, workers)?;
    let (mut desks, mut passes) = empty_seats::<K>(alloc, applicants, workers)?;
    match deal::<K>(alloc, blank, &credits, workers) {
        Ok((roll, desk_shares, pass_shares)) => {
            seat(&mut desks, desk_shares);
            seat_passes(&mut passes, pass_shares, counts);
            Ok((Till { roll }, desks, passes))
        }
        Err(refused) => {
            desks.destroy_empty();
            passes.destroy_empty();
            Err(refused)
        }
    }
}
