ghost use Rattle.std.specs.Prelude.{◌≡◌, ◌||◌, not, ◌^◌, ◌≢◌, ◌+◌, ◌==◌, ◌<◌, ℕ, IfNone, IfSome, IsNone, IsSome, length, vec_len};
ghost use Rattle.mt_terms.specs.Lists.{count_below, total_below};
ghost use Rattle.mt_terms.specs.Market.{applicants, live, live_entries};
ghost use Rattle.mt_terms.specs.Floor.{IsLegal, opening, proposals_made};
ghost use Rattle.mt_ranks.specs.Ranked.{IsRanked};
ghost use Rattle.mt_core.specs.Floors.{floor_of, IsOpenedWith};
ghost use Rattle.mt_desks.specs.Singles.{is_single};
ghost use Rattle.mt_hall.specs.Audits.{all_agree, all_at, all_proposals, made_in, noted, programs_agree, singles_agree, AreRows};

use crate::hall::Hall;
use mt_core::{Floor, made, received};
use mt_desks::{Desk, HallName, Pass};
use mt_ranks::Ranks;
use mt_tally::{DeskShare, Roll, settle, take_desk, take_pass};
use mt_terms::{AppNo, ProgNo};
use std::sync::Mutex;

/// What an audit found.
#[derive(Drop)]
pub struct Audit {
    /// The floor of all desks, or the opening floor if a desk is astray.
    pub floor: Floor,
    /// Whether, for each single and each program, the passes' counts add up to the floor's.
    pub agrees: bool,
    /// The first place whose desk bears another number, with that number.
    pub astray: Option<(AppNo, AppNo)>,
}

/// What a desk says of its applicant.
#[derive(Clone, Copy)]
pub(crate) struct Row {
    pub(crate) made: u32,
    pub(crate) standing: bool,
}

// Writes what a desk says into its place's row, or notes that it bears another number. The result is the desk's
// share.
fn note<K: HallName>(
    rows: &mut Vec<Row>,
    astray: &mut Option<(AppNo, AppNo)>,
    place: u32,
    desk: Desk<K>,
) -> DeskShare<K>
    requires place { place < vec_len rows.old }
    requires rows { IfNone astray.old (AreRows K.ranked.market rows.old.items place) }
    requires astray { IfSome astray.old (λ numbers. numbers.0 ≢ numbers.1) }
    ensures len { vec_len rows.new ≡ vec_len rows.old }
    ensures rows { IfNone astray.new (AreRows K.ranked.market rows.new.items (place + 1)) }
    ensures before { IfNone astray.new (IsNone astray.old) }
    ensures first { astray.new ≡ noted astray.old place desk.applicant }
    ensures credits { IfNone astray.new (result + total_below (made_in rows.new.items) (place + 1)
        ≡ total_below (made_in rows.old.items) place + length (live K.ranked.market place)) }
    ensures astray { IfSome astray.new (λ numbers. numbers.0 ≢ numbers.1) }
{
    let applicant = desk.applicant();
    let made = desk.made();
    let standing = desk.standing();
    let credits = desk.into_credits();
    if applicant == AppNo(place) {
        rows[place as usize] = Row { made, standing };
    } else if astray.is_none() {
        *astray = Some((AppNo(place), applicant));
    }
    credits
}

// Takes in all desks, and notes what they say: the first of them that bears another number than its place's, if any.
fn take_desks<K: HallName>(
    roll: &mut Roll<K>,
    rows: &mut Vec<Row>,
    desks: Vec<Mutex<Desk<K>>>,
) -> Option<(AppNo, AppNo)>
    requires desks { vec_len desks ≡ applicants K.ranked.market }
    requires rows { vec_len rows.old ≡ applicants K.ranked.market }
    requires few { applicants K.ranked.market < 2 ^ 32 }
    requires none { roll.old.desk_credits ≡ 0 }
    ensures shares { roll.new.shares ≡ roll.old.shares + vec_len desks }
    ensures total { roll.new.total ≡ roll.old.total }
    ensures passes { roll.new.pass_credits ≡ roll.old.pass_credits }
    ensures len { vec_len rows.new ≡ vec_len rows.old }
    ensures rows { let m = K.ranked.market in
        IfNone result (AreRows m rows.new.items (applicants m)) }
    ensures credits { let m = K.ranked.market in
        IfNone result (roll.new.desk_credits + total_below (made_in rows.new.items) (applicants m)
        ≡ live_entries m) }
    ensures astray { IfSome result (λ numbers. numbers.0 ≢ numbers.1) }
{
    let mut astray: Option<(AppNo, AppNo)> = None;
    let mut place: u32 = 0;
    let mut desks = desks.into_iter();
    'desks: while let Some(desk) = desks.next() {
        let credits = note(rows, &mut astray, place, desk.into_inner());
        take_desk(roll, credits);
        place += 1;
    }
    desks.destroy_empty();
    astray
}

// Takes in all passes.
fn take_passes<K: HallName>(roll: &mut Roll<K>, passes: Vec<Pass<K>>)
    ensures shares { roll.new.shares ≡ roll.old.shares + vec_len passes }
    ensures total { roll.new.total ≡ roll.old.total }
    ensures desks { roll.new.desk_credits ≡ roll.old.desk_credits }
    ensures credits { roll.new.pass_credits ≡ roll.old.pass_credits + all_proposals passes.items }
{
    let mut passes = passes.into_iter();
    'passes: while let Some(pass) = passes.next() {
        take_pass(roll, pass.into_credits());
    }
    passes.destroy_empty();
}

// Writes all rows into the opening floor.
fn write_rows(floor: &mut Floor, ranks: &Ranks, rows: &[Row])
    requires opened { IsOpenedWith ranks.now.market floor.old }
    requires opening { floor_of ranks.now.market floor.old ≡ opening }
    requires len { length rows.now ≡ applicants ranks.now.market }
    requires rows { AreRows ranks.now.market rows.now (applicants ranks.now.market) }
    ensures opened { IsOpenedWith ranks.now.market floor.new }
    ensures legal { IsLegal ranks.now.market (floor_of ranks.now.market floor.new) }
    ensures made { (a : ℕ) → a < applicants ranks.now.market
        → (floor_of ranks.now.market floor.new).made a ≡ made_in rows.now a }
{
    for applicant in 0..ranks.applicants() {
        let row = rows[applicant as usize];
        floor.put_desk(ranks, AppNo(applicant), row.made, row.standing);
    }
}

// Whether the passes have this number of proposals for the applicant.
fn made_with<K: HallName>(passes: &[Pass<K>], applicant: AppNo, number: u32) -> bool
    requires { applicant < applicants K.ranked.market }
    ensures { result ≡ (all_at (λ s. s.by_applicant) passes.now applicant == number) }
{
    let mut left = number as u64;
    for pass in passes {
        match left.checked_sub(pass.proposed_for(applicant)) {
            Some(rest) => left = rest,
            None => return false,
        }
    }
    left == 0
}

// Whether the passes have this number of proposals to the program.
fn received_with<K: HallName>(passes: &[Pass<K>], program: ProgNo, number: u32) -> bool
    requires { program < length K.ranked.market.programs }
    ensures { result ≡ (all_at (λ s. s.by_program) passes.now program == number) }
{
    let mut left = number as u64;
    for pass in passes {
        match left.checked_sub(pass.proposed(program)) {
            Some(rest) => left = rest,
            None => return false,
        }
    }
    left == 0
}

// Whether the applicant is no single, or the passes' proposals for it are as many as it has made.
fn single_agrees<K: HallName>(
    floor: &Floor,
    ranks: &Ranks,
    passes: &[Pass<K>],
    applicant: AppNo,
) -> bool
    requires ranks { ranks.now ≡ K.ranked }
    requires opened { IsOpenedWith ranks.now.market floor.now }
    requires applicant { applicant < applicants ranks.now.market }
    ensures { let f = floor_of ranks.now.market floor.now in
        result ≡ (not (is_single ranks.now applicant)
        || (all_at (λ s. s.by_applicant) passes.now applicant == f.made applicant)) }
{
    !ranks.is_single(applicant) || made_with(passes, applicant, made(floor, applicant))
}

// Whether the passes' proposals to the program are as many as it has received.
fn program_agrees<K: HallName>(
    floor: &Floor,
    ranks: &Ranks,
    passes: &[Pass<K>],
    program: ProgNo,
) -> bool
    requires ranks { ranks.now ≡ K.ranked }
    requires ranked { IsRanked ranks.now }
    requires opened { IsOpenedWith ranks.now.market floor.now }
    requires program { program < length ranks.now.market.programs }
    ensures { let f = floor_of ranks.now.market floor.now in
        result ≡ (all_at (λ s. s.by_program) passes.now program
        == count_below (f.received program) (applicants ranks.now.market)) }
{
    received_with(passes, program, received(floor, program))
}

// Whether, for each single and each program, the passes' counts add up to the floor's.
fn agree<K: HallName>(floor: &Floor, ranks: &Ranks, passes: &[Pass<K>]) -> bool
    requires ranks { ranks.now ≡ K.ranked }
    requires opened { IsOpenedWith ranks.now.market floor.now }
    ensures { result ≡ all_agree ranks.now (floor_of ranks.now.market floor.now) passes.now }
{
    singles_agree(floor, ranks, passes) && programs_agree(floor, ranks, passes)
}

fn singles_agree<K: HallName>(floor: &Floor, ranks: &Ranks, passes: &[Pass<K>]) -> bool
    requires ranks { ranks.now ≡ K.ranked }
    requires opened { IsOpenedWith ranks.now.market floor.now }
    ensures { result ≡ singles_agree ranks.now (floor_of ranks.now.market floor.now) passes.now }
{
    (0..ranks.applicants()).all(|a| single_agrees(floor, ranks, passes, AppNo(a)))
}

fn programs_agree<K: HallName>(floor: &Floor, ranks: &Ranks, passes: &[Pass<K>]) -> bool
    requires ranks { ranks.now ≡ K.ranked }
    requires opened { IsOpenedWith ranks.now.market floor.now }
    ensures { result ≡ programs_agree ranks.now (floor_of ranks.now.market floor.now) passes.now }
{
    (0..ranks.programs()).all(|p| program_agrees(floor, ranks, passes, ProgNo(p)))
}

impl<'a, K: HallName> Hall<'a, K> {
    /// Audits what was made with all the passes that were opened with this hall. It takes every credit in, and writes
    /// each desk into one floor. That floor is legal whatever the threads did, and in whatever order. It takes no
    /// lock and no memory. If a desk bears another number than its place's, the floor is the opening one. No test
    /// meets such a desk.
    pub fn close(self, passes: Vec<Pass<K>>) -> Audit
        requires all { K.parts ≡ applicants K.ranked.market + vec_len passes }
        ensures opened { IsOpenedWith K.ranked.market result.floor }
        ensures legal { IsLegal K.ranked.market (floor_of K.ranked.market result.floor) }

        // As many proposals were made as there are credits in the passes.
        ensures total { let m = K.ranked.market in
            IfNone result.astray
            (proposals_made m (floor_of m result.floor) ≡ all_proposals passes.items) }
        ensures astray { IfSome result.astray (λ numbers. numbers.0 ≢ numbers.1) }
        ensures opening { IsSome result.astray → floor_of K.ranked.market result.floor ≡ opening }
        ensures agrees { let m = K.ranked.market in
            result.agrees ≡ all_agree K.ranked (floor_of m result.floor) passes.items }
    {
        let Hall {
            desks,
            doors: _,
            till,
            ranks,
            mut floor,
            mut rows,
        } = self;
        let mut roll = till.into_inner().into_roll();
        ranks.applicants();
        let astray = take_desks(&mut roll, &mut rows, desks);
        if astray.is_none() {
            write_rows(&mut floor, ranks, &rows);
        }
        let agrees = agree(&floor, ranks, &passes);
        take_passes(&mut roll, passes);
        settle(roll);
        Audit {
            floor,
            agrees,
            astray,
        }
    }
}
