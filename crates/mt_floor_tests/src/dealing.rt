//! The parts of a hall as they are dealt: whose each is, what it has, and that all credits come back.
ghost use Rattle.std.specs.Prelude.{◌≡◌, ◌+◌, vec_len};
ghost use Rattle.mt_terms.specs.Market.{applicants};

use crate::expect::{on_ranks, same};
use mt_desks::{Desk, HallName, Pass, deal_out, open_doors};
use mt_ranks::Ranks;
use mt_samples::markets::CHAIN;
use mt_tally::{Roll, settle, take_desk, take_pass};
use mt_terms::{AppNo, ProgNo};
use std::alloc::{AllocError, Global};
use std::marker::Brand;
use std::process::Abort;
use std::sync::Mutex;
use std::sync::ledger::Blank;
use std::test::Fail;

// How many live entries the chain's applicants have: five in all.
const CREDITS: &[u64] = &[2, 2, 1];

// Takes in the desks. They are those of the applicants in turn, who have made no proposal, and each has a credit for
// each live entry.
fn take_desks<K: HallName>(rt: &impl Abort, roll: &mut Roll<K>, desks: Vec<Mutex<Desk<K>>>)
    ensures shares { roll.new.shares ≡ roll.old.shares + vec_len desks }
{
    same(rt, desks.len(), CREDITS.len());
    let mut place: u32 = 0;
    let mut desks = desks.into_iter();
    'desks: while let Some(desk) = desks.next() {
        let desk = desk.into_inner();
        same(rt, desk.applicant(), AppNo(place));
        same(rt, (desk.made(), desk.standing()), (0, false));
        let share = desk.into_credits();
        let wanted = CREDITS.get(place as usize).copied();
        same(rt, Some(share.credits()), wanted);
        take_desk(roll, share);
        place = place.saturating_add(1);
    }
    desks.destroy_empty();
}

// Takes in the passes, with which no proposal was made.
fn take_passes<K: HallName>(rt: &impl Abort, roll: &mut Roll<K>, passes: Vec<Pass<K>>)
    ensures shares { roll.new.shares ≡ roll.old.shares + vec_len passes }
{
    let mut passes = passes.into_iter();
    'passes: while let Some(pass) = passes.next() {
        let share = pass.into_credits();
        same(rt, share.credits(), 0);
        take_pass(roll, share);
    }
    passes.destroy_empty();
}

fn dealt_in<K: HallName>(
    rt: &impl Abort,
    alloc: Global,
    ranks: &Ranks,
    blank: Blank,
) -> Result<(), AllocError>
    requires ranks { ranks.now ≡ K.ranked }
    requires name { blank.name ≡ K.name }
    requires parts { (blank.parts ≡ K.parts) × (K.parts ≡ applicants K.ranked.market + 2) }
{
    let (till, desks, passes) = deal_out::<K>(alloc, ranks, 2, blank)?;
    same(rt, passes.len(), 2);
    let mut roll = till.into_roll();
    same(rt, roll.total(), 5);
    take_desks(rt, &mut roll, desks);
    take_passes(rt, &mut roll, passes);
    same(rt, settle(roll), (5, 0));
    Ok(())
}

fn dealt_on(rt: &impl Abort, alloc: Global, ranks: &Ranks) -> Result<(), AllocError> {
    let blank = Blank::new(ranks.applicants() as u64 + 2);
    dealt_in::<Brand>(rt, alloc, ranks, blank)
}

#[test]
fn all_credits_come_back(rt: HostRuntime) -> Result<(), Fail> {
    on_ranks(&rt, rt.alloc(), CHAIN, |ranks| {
        dealt_on(&rt, rt.alloc(), ranks)
    })
}

// The doors are those of the programs in turn, and have received nobody.
fn expect_doors<K: HallName>(
    rt: &impl Abort,
    alloc: Global,
    ranks: &Ranks,
) -> Result<(), AllocError>
    requires { ranks.now ≡ K.ranked }
{
    let doors = open_doors::<K>(alloc, ranks)?;
    same(rt, doors.len(), 2);
    let mut number: u32 = 0;
    for door in doors {
        let door = door.into_inner();
        same(rt, (door.program(), door.received()), (ProgNo(number), 0));
        number = number.saturating_add(1);
    }
    Ok(())
}

fn expect_doors_of(rt: &impl Abort, alloc: Global, ranks: &Ranks) -> Result<(), AllocError> {
    expect_doors::<Brand>(rt, alloc, ranks)
}

#[test]
fn each_door_is_of_its_program(rt: HostRuntime) -> Result<(), Fail> {
    on_ranks(&rt, rt.alloc(), CHAIN, |ranks| {
        expect_doors_of(&rt, rt.alloc(), ranks)
    })
}
